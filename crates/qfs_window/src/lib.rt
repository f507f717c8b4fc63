//! Reading a window of a block from any six of its nine slots, for whoever reads: a get, or a
//! recovery.
#![tactic(auto)]

mod parts;
mod sources;
mod window_read;

pub use parts::restore_slot;
pub use sources::{Source, Sources, are_too_few, causes_of, sources_of};
pub use window_read::{WindowRead, WindowStep, begin_window, fetch_request, make_room, step_after};
