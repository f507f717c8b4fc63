//! What is known of the chunk servers.
ghost use Rattle.std.specs.Prelude.{◌≡◌};
ghost use Rattle.qfs_model_meta.specs.Servers.{server_at, is_live, is_listed, listed_copy, takes_chunks};
ghost use Rattle.qfs_model_meta.specs.Slots.{granted_copy};

use qfs_base::chunk::Copy;
use qfs_base::image::{Grant, ServerView};
use qfs_base::numbers::ServerId;

/// What is seen of a server that isn't there.
const NO_SERVER: ServerView = ServerView {
    up: false,
    leaving: true,
    life: 0,
    until: 0,
};

/// The server of a number, from 1. Of one that isn't there nothing is known: it is down, leaving,
/// and has the life 0.
#[tactic(auto, using(crate::proofs::ServerLaws::server_at_above), unfolding(qfs_model_meta::specs::Servers::server_at, qfs_model_meta::specs::Servers::no_server))]
pub fn server_at(servers: &[ServerView], number: ServerId) -> ServerView
    ensures { result ≡ server_at servers.now number }
{
    if number == 0 {
        return NO_SERVER;
    }
    match servers.get(number as usize - 1) {
        Some(server) => *server,
        None => NO_SERVER,
    }
}

/// Whether a copy or grant is live: its life is the known life of its server.
#[tactic(auto, unfolding(qfs_model_meta::specs::Servers::is_live))]
pub fn is_live(servers: &[ServerView], copy: Copy) -> bool
    ensures { result ≡ is_live servers.now copy }
{
    copy.life == server_at(servers, copy.server).life
}

/// Whether a copy is listed: it is live, and its server is up.
#[tactic(auto, unfolding(qfs_model_meta::specs::Servers::is_listed))]
pub fn is_listed(servers: &[ServerView], copy: Copy) -> bool
    ensures { result ≡ is_listed servers.now copy }
{
    is_live(servers, copy) && server_at(servers, copy.server).up
}

/// A copy, where it is listed.
#[tactic(auto, unfolding(qfs_model_meta::specs::Servers::listed_copy))]
pub fn listed_copy(servers: &[ServerView], copy: Option<Copy>) -> Option<Copy>
    ensures { result ≡ listed_copy servers.now copy }
{
    copy.filter(|copy| is_listed(servers, *copy))
}

/// Whether a server takes new chunks: it is up and not leaving.
#[tactic(auto, unfolding(qfs_model_meta::specs::Servers::takes_chunks))]
pub fn takes_chunks(server: &ServerView) -> bool
    ensures { result ≡ takes_chunks server.now }
{
    server.up && !server.leaving
}

/// The copy that a pending grant allows.
#[tactic(auto, unfolding(qfs_model_meta::specs::Slots::granted_copy))]
pub fn granted_copy(grant: Option<Grant>) -> Option<Copy>
    ensures { result ≡ granted_copy grant }
{
    grant.map(|grant| grant.copy)
}
