//! What a recovery and a move share: a chunk is stored under its grant and confirmed, or the grant
//! is given up.
#![tactic(auto)]

mod chunk;
mod delivery;
mod failure;
mod grants;
mod groups;
mod turn;

pub use chunk::Chunk;
pub use delivery::{After, Delivery, abandon_request};
pub use failure::Failure;
pub use grants::{is_grant_of, is_in_range};
pub use groups::{group_bytes, group_rows, group_start, make_chunk_room, stripe, zeros};
pub use turn::{Step, give_up, step_after};
