//! The slots of blocks and the condemned copies, over sorted tables. Reading calls say what a
//! change would meet; the changes take room that was reserved, and can't fail.
#![tactic(auto)]

mod blocks;
mod calls;
mod change;
mod changes;
mod entries;
mod error;
mod index;
mod key;
mod laws;
mod lists;
mod records;
mod row;
mod scan;
mod state;

pub use blocks::Blocks;
pub use error::BlockError;
pub use laws::{
    change_of_grants, changes_of_condemned_copies, changes_of_leases, changes_of_servers,
    condemning_changes,
};
pub use row::RecordRow;
pub use state::NewGrant;
