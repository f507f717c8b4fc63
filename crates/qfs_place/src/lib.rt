//! Where new chunks may stand: the load of each server, which servers are barred, and the choice
//! of the one with the lowest load.
#![tactic(auto)]

mod barred;
mod choosing;
mod laws;
mod loads;
mod servers;

pub use barred::{bar_copies, bar_grant, bar_live, failed_with, has_live_on};
pub use choosing::{Numbered, Shift, choose, heaviest, lightest, uneven};
pub use laws::{
    loads_are_counts, loads_follow_files, loads_follow_servers, loads_follow_slots,
    moves_even_loads_out, nine_slots_bar_servers, other_changes_leave_loads, puts_choose_by_census,
    rows_are_counted, rows_bar_servers,
};
pub use loads::Loads;
pub use servers::{granted_copy, is_listed, is_live, listed_copy, server_at, takes_chunks};
