//! Plans that are made of changes and a reply, and refusals.
ghost use Rattle.std.specs.Prelude.{◌≡◌, [], ◌∷◌, ◌++◌, IfOk};
ghost use Rattle.qfs_base.specs.declared.image.MetaImage.{MetaImage};
ghost use Rattle.qfs_base.specs.declared.reply.MetaReply.TheVariants.{Refused};
ghost use Rattle.qfs_model_meta.specs.Decision.{Makes};
ghost use Rattle.qfs_state.specs.declared.prepared.Unplanned.TheVariants.{Tells};
ghost use Rattle.qfs_state.specs.Planning.{IsPlan, MayMake, MayMakeAll, change_of, changes_of};

use qfs_base::numbers::Place;
use qfs_base::reply::{MetaReply, TreeRefusal};
use qfs_state::{Plan, Prepared, Unplanned};
use std::alloc::{AllocError, Global};

/// The name tree refuses a file command, at its place in the file history.
pub fn refused(refusal: TreeRefusal, place: Place) -> Unplanned
    ensures { result ≡ Tells (Refused refusal place) }
{
    Unplanned::Tells(MetaReply::Refused { refusal, place })
}

/// The plan of one change.
pub fn one_change(alloc: Global, change: Prepared, reply: MetaReply) -> Result<Plan, AllocError>
    ensures { (m : MetaImage) → MayMake m change
        → IfOk result (IsPlan m (Makes (change_of change ∷ []) reply)) }
{
    let changes = vec![in alloc; change]?;
    Ok(Plan { changes, reply })
}

/// The plan of several changes, and of a last one behind them.
pub fn plan_of(
    mut changes: Vec<Prepared>,
    last: Prepared,
    reply: MetaReply,
) -> Result<Plan, AllocError>
    ensures { (m : MetaImage) → MayMakeAll m (changes.items ++ last ∷ [])
        → IfOk result (IsPlan m (Makes (changes_of (changes.items ++ last ∷ [])) reply)) }
{
    changes.push(last)?;
    Ok(Plan { changes, reply })
}
