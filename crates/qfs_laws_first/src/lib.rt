//! The laws of puts and gets: each is a function that does nothing, whose contract is the law. A
//! law speaks of the definitions alone, and so of every run that they allow.
#![tactic(auto)]

ghost use Rattle.std.specs.Prelude.{List, IsTrue};
ghost use Rattle.std.specs.List.{list_all};
ghost use Rattle.qfs_base.specs.Table.{Each};
ghost use Rattle.qfs_base.specs.declared.command.Command.{Command};
ghost use Rattle.qfs_base.specs.declared.history.Step.{Step};
ghost use Rattle.qfs_base.specs.declared.script.Script.{Script};
ghost use Rattle.qfs_model_world.specs.Deletion.{NoDeletion};
ghost use Rattle.qfs_model_world.specs.Events.{events};
ghost use Rattle.qfs_model_world.specs.EveryGet.{EveryGet};
ghost use Rattle.qfs_model_world.specs.Fits.{fits};
ghost use Rattle.qfs_model_world.specs.GivenOrder.{is_done};
ghost use Rattle.qfs_model_world.specs.Replayed.{KeepsAtRestart};
ghost use Rattle.qfs_model_world.specs.Reports.{OneFileHistory};
ghost use Rattle.qfs_laws_first.specs.FirstPath.{PutsAndGets, IsFirstPath, AllDone};
ghost use Rattle.qfs_laws_first.specs.Replies.{PlainReplies};

/// In a script of puts and gets nothing is deleted, by any number of actors, in any order of steps,
/// however they come out: so no deletion names a current copy. Nor does the metaserver restart, so
/// every restart leaves it as it was.
pub fn puts_and_gets_delete_nothing()
    ensures deletion { (script : Script) (order : List Step) → PutsAndGets script
        → NoDeletion script order }
    ensures restarts { (script : Script) (order : List Step)
        → PutsAndGets script → Each KeepsAtRestart (events script order) }
{}

/// Where one actor puts files of 1 to 32 bytes and gets whole files, and all steps so far came out
/// done, there is one legal file history, every reply agrees with it at a moment of its command,
/// and is that a file was stored, was read, or was refused by the name tree. Every get that opened
/// its file, has ended and was served well has read the bytes of its path at the place of its last
/// opening, and no deletion names a current copy. The order may be one that goes on: it need not be
/// whole.
pub fn first_path_keeps_its_promises()
    ensures history { (script : Script) (commands : List Command) (order : List Step)
        → IsFirstPath script commands → AllDone order → OneFileHistory script order }
    ensures replies { (script : Script) (commands : List Command) (order : List Step)
        → IsFirstPath script commands → AllDone order → PlainReplies script order }
    ensures gets { (script : Script) (commands : List Command) (order : List Step)
        → IsFirstPath script commands → AllDone order → EveryGet script order }
    ensures deletion { (script : Script) (commands : List Command) (order : List Step)
        → IsFirstPath script commands → NoDeletion script order }
{}

/// An order that fits such a script, and in which every step came out done, has steps of actor 1
/// alone: so the laws of the first path speak of it.
pub fn fitting_orders_are_of_one_actor()
    ensures { (script : Script) (commands : List Command) (order : List Step)
        → IsFirstPath script commands → IsTrue (fits script order) → IsTrue (list_all is_done order)
        → AllDone order }
{}
