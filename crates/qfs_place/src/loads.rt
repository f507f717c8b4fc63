//! The load of each server: how many live current copies and live pending grants stand on it.
ghost use Rattle.std.specs.Prelude.{◌≡◌, ◌<◌, ◌≤◌, [], IfOk, OnOk, OnErr, IsTrue, ◌↔◌};
ghost use Rattle.qfs_base.specs.Sizes.{LAST_U32};
ghost use Rattle.qfs_model_meta.specs.Placing.{census};
ghost use Rattle.qfs_place.specs.Loads.{load_at, with_load, change_load, one_more, one_fewer, seen_as, emptied_as, counted_as, count_live, uncount_live, uncount_row};

use crate::servers::{granted_copy, is_live};
use qfs_base::chunk::Copy;
use qfs_base::image::{Census, Load, ServerView, SlotRow};
use qfs_base::listing::Listing;
use qfs_base::numbers::ServerId;
use std::alloc::{AllocError, Global};
use std::marker::Model;

/// The census as it is kept beside the table of slots: of each server, by number from 1, whether
/// it is up, whether it is leaving, and its load. Contracts see the list of these.
#[derive(Drop)]
pub struct Loads {
    census: Census,
}

impl Model for Loads {
    ghost use Rattle.std.specs.Prelude.{List};
    ghost use Rattle.qfs_base.specs.declared.image.Load.{Load};

    ghost Value = { List Load };

    ghost view = { λ it. it.census };
}

/// What is seen of a server that isn't there.
const NO_LOAD: Load = Load {
    up: false,
    leaving: true,
    count: 0,
};

/// A server that has no copies.
fn empty(server: &ServerView) -> Load
    ensures { result ≡ record { up = server.now.up; leaving = server.now.leaving; count = 0 } }
{
    Load {
        up: server.up,
        leaving: server.leaving,
        count: 0,
    }
}

impl Loads {
    /// The loads of servers that have no copies.
    pub fn new(alloc: Global, servers: &[ServerView]) -> Result<Loads, AllocError>
        ensures { IfOk result (λ it. it ≡ census servers.now []) }
    {
        let mut census = Listing::with_capacity(alloc, servers.len())?;
        for server in servers {
            census.push(empty(server))?;
        }
        Ok(Loads { census })
    }

    /// The loads of servers that have the copies and grants of these slots. It passes each slot
    /// once, and finds no memory where a load would be above the last number of 32 bits.
    pub fn of_slots(
        alloc: Global,
        servers: &[ServerView],
        slots: &[SlotRow],
    ) -> Result<Loads, AllocError>
        ensures { IfOk result (λ it. it ≡ census servers.now slots.now) }
    {
        let mut loads = Loads::new(alloc, servers)?;
        for row in slots {
            loads.count_live(servers, row.state.current)?;
            loads.count_live(servers, granted_copy(row.state.grant))?;
        }
        Ok(loads)
    }

    /// The same loads once more.
    pub fn copy(&self, alloc: Global) -> Result<Loads, AllocError>
        ensures { IfOk result (λ it. it ≡ self.now) }
    {
        let census = Listing::from_slice(alloc, self.census.as_slice())?;
        Ok(Loads { census })
    }

    /// All servers as placement sees them.
    pub fn census(&self) -> &Census
        ensures { result.now ≡ self.now }
    {
        &self.census
    }

    /// The load of a server: one that isn't there is down and leaving, and has no copies.
    #[tactic(auto, using(crate::proofs::ServerLaws::load_at_above))]
    fn at(&self, server: ServerId) -> Load
        ensures { result ≡ load_at self.now server }
    {
        if server == 0 {
            return NO_LOAD;
        }
        match self.census.as_slice().get(server as usize - 1) {
            Some(load) => *load,
            None => NO_LOAD,
        }
    }

    /// Writes the load of a server, if it is there.
    fn set(&mut self, server: ServerId, load: Load)
        ensures { self.new ≡ with_load self.old server load }
    {
        if server == 0 {
            return;
        }
        let at = server as usize - 1;
        if at < self.census.len() {
            self.census.set(at, load);
        }
    }

    /// How many live copies and grants stand on a server: 0 on one that isn't there.
    pub fn on(&self, server: ServerId) -> u32
        ensures { result ≡ (load_at self.now server).count }
    {
        self.at(server).count
    }

    /// Whether no further copy can be counted on a server: its load is the last number of 32 bits.
    pub fn is_full(&self, server: ServerId) -> bool
        ensures { IsTrue result ↔ (LAST_U32 ≤ (load_at self.now server).count) }
    {
        self.on(server) == u32::MAX
    }

    /// Counts a live copy or grant that came to a server. One that isn't there stays so.
    pub fn count(&mut self, server: ServerId)
        requires { (load_at self.old server).count < LAST_U32 }
        ensures { self.new ≡ change_load one_more self.old server }
    {
        let load = self.at(server);
        self.set(
            server,
            Load {
                count: load.count + 1,
                ..load
            },
        );
    }

    /// Takes a live copy or grant that left a server off its load. A load of 0 stays.
    pub fn uncount(&mut self, server: ServerId)
        ensures { self.new ≡ change_load one_fewer self.old server }
    {
        let load = self.at(server);
        self.set(
            server,
            Load {
                count: load.count.saturating_sub(1),
                ..load
            },
        );
    }

    /// Sees a server that came up in a new life, and so has no copies.
    pub fn clear(&mut self, server: ServerId, view: &ServerView)
        ensures { self.new ≡ change_load (emptied_as view.now) self.old server }
    {
        self.recount(server, view, 0);
    }

    /// Sees a server that came up in a life in which so many copies and grants stand there.
    pub fn recount(&mut self, server: ServerId, view: &ServerView, count: u32)
        ensures { self.new ≡ change_load (counted_as view.now count) self.old server }
    {
        self.set(
            server,
            Load {
                count,
                ..empty(view)
            },
        );
    }

    /// Sees a server up or down, and leaving or not, as it is now. Its load stays.
    pub fn see(&mut self, server: ServerId, view: &ServerView)
        ensures { self.new ≡ change_load (seen_as view.now) self.old server }
    {
        let count = self.on(server);
        self.recount(server, view, count);
    }

    /// Counts a copy or grant, if there is one and it is live. Where its server's load is full the
    /// loads stay, and no memory is found.
    pub fn count_live(
        &mut self,
        servers: &[ServerView],
        copy: Option<Copy>,
    ) -> Result<(), AllocError>
        ensures ok { OnOk result (self.new ≡ count_live servers.now copy self.old) }
        ensures err { OnErr result (self.new ≡ self.old) }
    {
        let Some(copy) = copy else {
            return Ok(());
        };
        if !is_live(servers, copy) {
            return Ok(());
        }
        if self.is_full(copy.server) {
            return Err(AllocError);
        }
        self.count(copy.server);
        Ok(())
    }

    /// Takes a copy or grant off its server's load, if there is one and it is live.
    pub fn uncount_live(&mut self, servers: &[ServerView], copy: Option<Copy>)
        ensures { self.new ≡ uncount_live servers.now copy self.old }
    {
        let Some(copy) = copy else {
            return;
        };
        if is_live(servers, copy) {
            self.uncount(copy.server);
        }
    }

    /// Takes the current copy and the grant of a slot that is gone off the loads.
    pub fn uncount_row(&mut self, servers: &[ServerView], row: &SlotRow)
        ensures { self.new ≡ uncount_row servers.now self.old row.now }
    {
        self.uncount_live(servers, row.state.current);
        self.uncount_live(servers, granted_copy(row.state.grant));
    }
}
