//! The changes of servers, and the tick of the clock.
ghost use Rattle.std.specs.Prelude.{◌≡◌, length};
ghost use Rattle.qfs_blocks.specs.LeaseLaws.{entries_if_risen};
ghost use Rattle.qfs_model_meta.specs.Apply.{apply};
ghost use Rattle.qfs_model_meta.specs.Grammar.{IsServer};
ghost use Rattle.qfs_model_meta.specs.Servers.{change_server};
ghost use Rattle.qfs_state.specs.Planning.{MayMake, change_of};
ghost use Rattle.qfs_state.specs.Rooms.{TakesRoom, needs};
ghost use Rattle.qfs_state.specs.declared.prepared.Prepared.TheVariants.{ClockTicks, ServerDown, ServerLeaves, ServerSleeps, ServerUp};

use crate::state::State;
use qfs_base::image::{ServerView, Servers};
use qfs_base::numbers::{Life, ServerId};
use qfs_blocks::Blocks;
use qfs_place::server_at;

/// A server that is there is as this from now on.
#[tactic(auto, unfolding(qfs_model_meta::specs::Servers::change_server))]
fn set_server(servers: &mut Servers, server: ServerId, view: ServerView)
    requires { IsServer (length servers.old) server }
    ensures { servers.new ≡ change_server (λ _. view) servers.old server }
{
    servers.set(server as usize - 1, view);
}

/// The condemned copies on a server are gone, if its life rose.
fn forget_if_risen(blocks: &mut Blocks, server: ServerId, rose: bool)
    ensures { blocks.new ≡ record blocks.old {
      condemned = entries_if_risen server blocks.old.condemned rose;
    } }
{
    if rose {
        blocks.forget_server(server);
    }
}

impl State {
    /// A server is up, in a life in which so many copies and grants stand on it. Where that is a
    /// new life, the condemned copies on it are gone.
    pub(crate) fn server_up(&mut self, server: ServerId, life: Life, count: u32)
        requires may { MayMake self.old.image (ServerUp server life count) }
        ensures image { self.new.image
            ≡ apply self.old.image (change_of (ServerUp server life count)) }
        ensures room { TakesRoom (needs (ServerUp server life count)) self.old self.new }
    {
        let known = server_at(self.servers.as_slice(), server);
        let view = ServerView {
            up: true,
            leaving: known.leaving,
            life,
            until: 0,
        };
        forget_if_risen(&mut self.blocks, server, known.life < life);
        set_server(&mut self.servers, server, view);
        self.loads.recount(server, &view, count);
    }

    /// A server is down. Its copies and its load stay.
    pub(crate) fn server_down(&mut self, server: ServerId)
        requires may { MayMake self.old.image (ServerDown server) }
        ensures image { self.new.image ≡ apply self.old.image (change_of (ServerDown server)) }
        ensures room { TakesRoom (needs (ServerDown server)) self.old self.new }
    {
        let known = server_at(self.servers.as_slice(), server);
        let view = ServerView { up: false, ..known };
        set_server(&mut self.servers, server, view);
        self.loads.see(server, &view);
    }

    /// A server is leaving for good. Its copies and its load stay.
    pub(crate) fn server_leaves(&mut self, server: ServerId)
        requires may { MayMake self.old.image (ServerLeaves server) }
        ensures image { self.new.image ≡ apply self.old.image (change_of (ServerLeaves server)) }
        ensures room { TakesRoom (needs (ServerLeaves server)) self.old self.new }
    {
        let known = server_at(self.servers.as_slice(), server);
        let view = ServerView {
            leaving: true,
            ..known
        };
        set_server(&mut self.servers, server, view);
        self.loads.see(server, &view);
    }

    /// A server is down, and hibernates until the clock reads `until`. Its copies and its load
    /// stay.
    pub(crate) fn server_sleeps(&mut self, server: ServerId, until: u64)
        requires may { MayMake self.old.image (ServerSleeps server until) }
        ensures image { self.new.image
            ≡ apply self.old.image (change_of (ServerSleeps server until)) }
        ensures room { TakesRoom (needs (ServerSleeps server until)) self.old self.new }
    {
        let known = server_at(self.servers.as_slice(), server);
        let view = ServerView {
            up: false,
            until,
            ..known
        };
        set_server(&mut self.servers, server, view);
        self.loads.see(server, &view);
    }

    /// The clock goes on by one tick, and stays at its last reading.
    #[tactic(auto, unfolding(qfs_model_meta::specs::Apply::apply))]
    pub(crate) fn tick(&mut self)
        ensures image { self.new.image ≡ apply self.old.image (change_of ClockTicks) }
        ensures room { TakesRoom (needs ClockTicks) self.old self.new }
    {
        self.clock = self.clock.saturating_add(1);
    }
}
