//! What a file command answers at a place of the file history. The entries before the place are
//! gone through once: the paths that they leave stand in a table, and another one says at which
//! paths an unclosed file may stand, so that an entry costs a few look-ups, and a rename those of
//! what it moves.
#![tactic(auto)]

mod changes;
mod files;
mod key;
mod listing;
mod names;
mod puts;
mod refusals;
mod replies;
mod row;

pub use replies::reply_at;
