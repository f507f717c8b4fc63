//! The request by which a server says that it came up, and what it stores.
ghost use Rattle.std.specs.Prelude.{◌≡◌, ◌∷◌, length, map, IfOk, IfErr};
ghost use Rattle.qfs_model_meta.specs.Grammar.{IsServer};
ghost use Rattle.qfs_model_meta.specs.ServerRequests.{decide_hello};
ghost use Rattle.qfs_model_meta.specs.Slots.{count_on};
ghost use Rattle.qfs_state.specs.declared.prepared.Prepared.TheVariants.{CondemnStray, ServerUp};
ghost use Rattle.qfs_state.specs.Planning.{IsPlan, IsUnplanned};

use qfs_base::lists::KeyList;
use qfs_base::numbers::{Life, ServerId};
use qfs_base::reply::MetaReply;
use qfs_place::{loads_are_counts, server_at};
use qfs_planning::place_of;
use qfs_state::{Plan, Prepared, State, Unplanned};
use std::alloc::{AllocError, Global};

/// How many current copies and grants stand on a server in a life: its load where that is the
/// life that is known, or else each slot is passed once. No memory is found where 32 bits can't
/// count them.
fn count_in(state: &State, server: ServerId, life: Life) -> Result<u32, AllocError>
    requires { IsServer (length state.now.image.servers) server }
    ensures { IfOk result (λ count. count_on server life state.now.image.slots ≡ count) }
{
    if life == server_at(state.servers().as_slice(), server).life {
        loads_are_counts();
        return Ok(state.loads().on(server));
    }
    let count = state.blocks().count_on(server, life);
    if count == u32::MAX {
        return Err(AllocError);
    }
    Ok(count)
}

/// A server comes up in a life in which so many copies and grants stand on it, and each copy that
/// it stores is condemned unless a slot or the list of condemned copies knows it.
fn arrival(
    alloc: Global,
    server: ServerId,
    life: Life,
    count: u32,
    keys: &KeyList,
) -> Result<Vec<Prepared>, AllocError>
    ensures { IfOk result (λ changes. changes.items
        ≡ ServerUp server life count ∷ map (CondemnStray server life) keys.now) }
{
    let mut changes = vec![in alloc;
        Prepared::ServerUp {
            server,
            life,
            count,
        },
    ]?;
    for key in keys.iter() {
        changes.push(Prepared::CondemnStray {
            server,
            life,
            key: *key,
        })?;
    }
    Ok(changes)
}

/// A server came up in a life, in which it stores copies with these keys. Its life is refused
/// where a later one is known of it (Old). What no slot knows of is condemned.
#[tactic(auto, using(qfs_planning::specs::Deciding::unless_false), unfolding(qfs_model_meta::specs::ServerRequests::decide_hello))]
pub fn plan_hello(
    alloc: Global,
    state: &State,
    server: ServerId,
    life: Life,
    keys: &KeyList,
) -> Result<Plan, Unplanned>
    requires { IsServer (length state.now.image.servers) server }
    ensures ok { IfOk result (IsPlan state.now.image
        (decide_hello server life keys.now state.now.image)) }
    ensures err { IfErr result (IsUnplanned
        (decide_hello server life keys.now state.now.image)) }
{
    let known = server_at(state.servers().as_slice(), server).life;
    if life < known {
        return Err(Unplanned::Tells(MetaReply::Old { known }));
    }
    let place = place_of(state)?;
    let count = count_in(state, server, life)?;
    let changes = arrival(alloc, server, life, count, keys)?;
    let reply = MetaReply::Done { place };
    Ok(Plan { changes, reply })
}
