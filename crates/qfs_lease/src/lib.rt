//! Leases: who holds one on which file, and until which reading of the clock. They are kept in
//! tables: by number, by file and by the reading at which they end.
#![tactic(auto)]

mod index;
mod leases;
mod row;
mod view;

pub use leases::Leases;
pub use row::LeaseRow;
pub use view::LeaseView;
