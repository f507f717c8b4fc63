//! Sets of servers in records: their numbers, rising, with their count before them.
ghost use Rattle.std.specs.Prelude.{◌≡◌, ◌<◌, ◌^◌, ◌++◌, flat_map, length, OnOk, OnErr};
ghost use Rattle.qfs_model_disks.specs.Values.{from_one};
ghost use Rattle.qfs_spelling.specs.Fronts.{Extends, Finds};
ghost use Rattle.qfs_spelling.specs.Sets.{server_set};

use crate::values::from_one_at;
use qfs_base::server_set::ServerSet;
use qfs_base::sizes::MOST_SERVERS;
use qfs_record::{put_u16, put_u32, u32_at};
use std::alloc::AllocError;

/// Puts a set at the end of `out`. On want of memory only a front of that stands there.
pub fn put_set(set: ServerSet, out: &mut Vec<u8>) -> Result<(), AllocError>
    requires { server_set.Fits set }
    ensures ok { OnOk result (out.new.items ≡ out.old.items ++ server_set.text set) }
    ensures err { OnErr result (Extends out.old.items out.new.items) }
{
    put_u32(count_of(set), out)?;
    put_servers(set, out)
}

/// How many servers a set has.
fn count_of(set: ServerSet) -> u32
    requires { length set < 2 ^ 32 }
    ensures { result ≡ length set }
{
    set.iter().count() as u32
}

/// Puts the servers of a set, rising. On want of memory only a front of that stands there.
fn put_servers(set: ServerSet, out: &mut Vec<u8>) -> Result<(), AllocError>
    ensures ok { OnOk result (out.new.items ≡ out.old.items ++ flat_map from_one.text set) }
    ensures err { OnErr result (Extends out.old.items out.new.items) }
{
    for server in set.iter() {
        put_u16(server, out)?;
    }
    Ok(())
}

/// The set at the front of bytes. None says that no front of them is one: a list whose numbers don't
/// rise, or go past 64, is none.
pub fn set_at(bytes: &[u8]) -> Option<(ServerSet, &[u8])>
    ensures { Finds server_set bytes.now result }
{
    let (count, mut rest) = u32_at(bytes)?;
    let mut set = ServerSet::none();
    let mut last = 0;
    for i in 0..count {
        let (server, more) = from_one_at(rest)?;
        if server <= last || MOST_SERVERS < server {
            return None;
        }
        set.insert(server);
        last = server;
        rest = more;
    }
    Some((set, rest))
}
