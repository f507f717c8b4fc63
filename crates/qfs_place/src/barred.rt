//! The servers that may not get a chunk of a block.
ghost use Rattle.std.specs.Prelude.{◌≡◌, IfSome};
ghost use Rattle.std.specs.List.{list_any};
ghost use Rattle.std.specs.Option.{option_to_list};
ghost use Rattle.qfs_model_meta.specs.Placing.{with_live_servers};
ghost use Rattle.qfs_model_meta.specs.PutRequests.{failed_with};
ghost use Rattle.qfs_model_meta.specs.Slots.{granted_copy};
ghost use Rattle.qfs_place.specs.Barred.{HasNumber, row_copies, is_live_at, has_live_on};

use crate::servers::{granted_copy, is_live};
use qfs_base::chunk::Copy;
use qfs_base::image::{ServerView, SlotRecord};
use qfs_base::numbers::ServerId;
use qfs_base::server_set::ServerSet;

/// These servers, and that of a copy where there is one and it is live.
#[tactic(auto, unfolding(qfs_model_meta::specs::Placing::with_live_servers))]
pub fn bar_live(servers: &[ServerView], barred: ServerSet, copy: Option<Copy>) -> ServerSet
    requires { IfSome copy HasNumber }
    ensures { result ≡ with_live_servers servers.now barred (option_to_list copy) }
{
    match copy {
        Some(copy) if is_live(servers, copy) => {
            let mut wider = barred;
            wider.insert(copy.server);
            wider
        }
        _ => barred,
    }
}

/// These servers, and that of a slot's pending grant where there is one and it is live: what a put
/// of another slot of the block is barred from.
pub fn bar_grant(servers: &[ServerView], barred: ServerSet, state: &SlotRecord) -> ServerSet
    requires { IfSome (granted_copy state.now.grant) HasNumber }
    ensures { result
        ≡ with_live_servers servers.now barred (option_to_list (granted_copy state.now.grant)) }
{
    bar_live(servers, barred, granted_copy(state.grant))
}

/// These servers, and those of a slot's current copy and pending grant where these are live: what
/// a recovery or move of a slot of the block is barred from.
#[tactic(auto, using(crate::specs::BarredLaws::live_append))]
pub fn bar_copies(servers: &[ServerView], barred: ServerSet, state: &SlotRecord) -> ServerSet
    requires current { IfSome state.now.current HasNumber }
    requires granted { IfSome (granted_copy state.now.grant) HasNumber }
    ensures { result ≡ with_live_servers servers.now barred (row_copies state.now) }
{
    let barred = bar_live(servers, barred, state.current);
    bar_grant(servers, barred, state)
}

/// Whether a copy is there, is live, and stands on this server.
fn is_live_on(servers: &[ServerView], server: ServerId, copy: Option<Copy>) -> bool
    ensures { result ≡ list_any (is_live_at servers.now server) (option_to_list copy) }
{
    match copy {
        Some(copy) => copy.server == server && is_live(servers, copy),
        None => false,
    }
}

/// Whether the current copy of a slot or its pending grant is live and stands on this server.
pub fn has_live_on(servers: &[ServerView], server: ServerId, state: &SlotRecord) -> bool
    ensures { result ≡ has_live_on servers.now server state.now }
{
    is_live_on(servers, server, state.current)
        || is_live_on(servers, server, granted_copy(state.grant))
}

/// The servers that failed a put of a slot, and that of its pending grant, which counts as failed
/// once the slot is granted again.
#[tactic(auto, unfolding(qfs_model_meta::specs::PutRequests::failed_with, qfs_model_meta::specs::Slots::granted_copy))]
pub fn failed_with(state: &SlotRecord) -> ServerSet
    requires { IfSome (granted_copy state.now.grant) HasNumber }
    ensures { result ≡ failed_with state.now.failed state.now.grant }
{
    let mut failed = state.failed;
    if let Some(copy) = granted_copy(state.grant) {
        failed.insert(copy.server);
    }
    failed
}
