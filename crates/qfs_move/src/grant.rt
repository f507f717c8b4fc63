//! The copy that a move is made of.
#![tactic(auto, unfolding(qfs_model_actor::specs::Grants::copy_if, crate::specs::Sources::sole_of))]

ghost use Rattle.std.specs.Prelude.{◌≡◌, ◌<◌, length, slice_get, Some};
ghost use Rattle.qfs_model_actor.specs.Grants.{copy_if, source_of};
ghost use Rattle.qfs_move.specs.Sources.{listed_in, with_listed};

use qfs_base::chunk::Copy;
use qfs_base::reply::Granted;

/// Which slots of a grant list a copy.
#[derive(Clone, Copy)]
pub enum Listed {
    Nobody,
    One(usize, Copy),
    Several,
}

/// The same with one slot more.
fn with_listed(seen: Listed, slot: usize, listed: Option<Copy>) -> Listed
    ensures { result ≡ with_listed seen slot listed }
{
    match (seen, listed) {
        (seen, None) => seen,
        (Listed::Nobody, Some(copy)) => Listed::One(slot, copy),
        _ => Listed::Several,
    }
}

/// The copy that a slot lists, if it lists one.
fn listed_at(nine: &[Option<Copy>], slot: usize) -> Option<Copy>
    requires { slot < length nine.now }
    ensures { slice_get nine.now slot ≡ Some result }
{
    nine[slot]
}

/// Which of these slots list a copy.
fn listed_in(nine: &[Option<Copy>]) -> Listed
    ensures { result ≡ listed_in nine.now }
{
    let mut seen = Listed::Nobody;
    for slot in 0..nine.len() {
        seen = with_listed(seen, slot, listed_at(nine, slot));
    }
    seen
}

/// A copy, where it is the one that was meant.
fn copy_if(copy: Copy, meant: bool) -> Option<Copy>
    ensures { result ≡ copy_if copy meant }
{
    if meant { Some(copy) } else { None }
}

/// The copy that a move is made of: its grant lists that of its own slot alone.
pub fn source_of(grant: &Granted) -> Option<Copy>
    ensures { result ≡ source_of grant.now }
{
    match listed_in(grant.sources.as_slice()) {
        Listed::One(slot, copy) => copy_if(copy, slot == grant.slot as usize),
        _ => None,
    }
}
