//! Two commands of an actor, among nodes that answer as a test says.
ghost use Rattle.std.specs.Prelude.{◌≡◌, ◌≤◌, IfOk};
ghost use Rattle.qfs_machine.specs.declared.machine.Readiness.{Readiness};
ghost use Rattle.qfs_actor.specs.Forms.{IsBuiltFile};

use qfs_actor::Actor;
use qfs_base::command::{Command, FileCommand, Reply, ReplyLine};
use qfs_base::listing::Listing;
use qfs_base::path::path_from;
use qfs_base::reply::{MetaReply, NodeReply, TreeRefusal};
use qfs_base::request::{MetaRequest, NodeRequest};
use qfs_base::rules::Rules;
use qfs_recipe::{Form, Recipe};
use qfs_stripe::{Layout, LayoutCalls};
use std::alloc::Global;
use std::test::Fail;

/// The metaserver's answer to a put of an empty file: the second command's file is there already.
fn answer(request: &NodeRequest) -> NodeReply {
    match request {
        NodeRequest::Meta(MetaRequest::Create { command: 1, .. }) => {
            NodeReply::Meta(MetaReply::Created { file: 7, place: 3 })
        }
        NodeRequest::Meta(MetaRequest::Create { .. }) => NodeReply::Meta(MetaReply::Refused {
            refusal: TreeRefusal::Exists,
            place: 5,
        }),
        NodeRequest::Meta(MetaRequest::Close { .. }) => {
            NodeReply::Meta(MetaReply::Done { place: 4 })
        }
        _ => NodeReply::Meta(MetaReply::Nothing),
    }
}

/// Chunks of up to two rows of stripes of 16 bytes; a get opens its file once.
fn small_rules() -> Result<Rules, Fail>
    ensures { IfOk result (λ rules. 1 ≤ rules.tries) }
{
    let layout = Layout::new(16, 2).ok_or("a layout")?;
    Ok(Rules {
        layout,
        term: 0,
        tries: 1,
    })
}

/// A put of no bytes.
fn put_of_nothing(alloc: Global) -> Result<FileCommand, Fail>
    ensures { IfOk result IsBuiltFile }
{
    let path = path_from(alloc, b"/a")?.ok_or("a path")?;
    let recipe = Recipe {
        form: Form::Fill { byte: 0, len: 0 },
    };
    Ok(FileCommand::Put(path, recipe))
}

/// Runs an actor to its end, and counts its requests.
fn run(actor: &mut Actor) -> Result<u8, Fail>
    requires { actor.old.readiness ≡ Readiness.Unready }
{
    for count in 0..100u8 {
        actor.ready()?;
        match actor.next() {
            Some(request) => actor.took(answer(&request)),
            None => return Ok(count),
        }
    }
    Err(Fail::new("it goes on"))
}

/// Whether a line tells that the first put stored no bytes.
fn is_stored(line: &ReplyLine) -> bool {
    line.actor == 3
        && line.command == 1
        && matches!(&line.reply, Reply::Stored { place: 4, len: 0 })
}

/// Whether a line tells that the second put was refused.
fn is_refused(line: &ReplyLine) -> bool {
    line.actor == 3
        && line.command == 2
        && matches!(
            &line.reply,
            Reply::Refused {
                place: 5,
                refusal: TreeRefusal::Exists
            }
        )
}

/// Whether the replies are those to the two puts.
fn are_stored_and_refused(replies: &[ReplyLine]) -> bool {
    match replies {
        [first, second] => is_stored(first) && is_refused(second),
        _ => false,
    }
}

#[test]
fn commands_come_one_after_another(rt: HostRuntime) -> Result<(), Fail> {
    let rules = small_rules()?;
    let first = Command::File(put_of_nothing(rt.alloc())?);
    let second = Command::File(put_of_nothing(rt.alloc())?);
    let mut commands = Listing::new(rt.alloc());
    commands.push(first)?;
    commands.push(second)?;
    let mut actor = Actor::new(rt.alloc(), rules, 3, commands);
    assert!(rt; actor.goes_to() == Some(0));
    assert_eq!(rt; run(&mut actor)?, 3);
    assert!(rt; actor.goes_to().is_none());
    assert!(rt; are_stored_and_refused(actor.replies()));
    assert_eq!(rt; actor.into_replies().len(), 2);
    Ok(())
}

/// Takes what may go to any thread.
fn crosses<T: Drop + Send + Sync>(_value: &T) {}

#[test]
fn an_actor_may_cross_threads(rt: HostRuntime) -> Result<(), Fail> {
    let rules = small_rules()?;
    let actor = Actor::new(rt.alloc(), rules, 3, Listing::new(rt.alloc()));
    crosses(&actor);
    assert!(rt; actor.goes_to().is_none());
    Ok(())
}
