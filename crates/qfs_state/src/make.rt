//! Changes that were prepared are made, one after another, and a plan is carried out.
ghost use Rattle.std.specs.Prelude.{◌≡◌, IsTrue};
ghost use Rattle.qfs_base.specs.declared.image.MetaImage.{MetaImage};
ghost use Rattle.qfs_model_meta.specs.Apply.{apply, apply_all};
ghost use Rattle.qfs_model_meta.specs.Counters.{counters_fit};
ghost use Rattle.qfs_model_meta.specs.Decision.{Decision};
ghost use Rattle.qfs_model_meta.specs.Step.{carry_out, next_turn};
ghost use Rattle.qfs_state.specs.Planning.{IsPlan, MayMake, MayMakeAll, change_of, changes_of};
ghost use Rattle.qfs_state.specs.Rooms.{HasRoom, TakesRoom, needs, needs_all};

use crate::prepared::{Plan, Prepared};
use crate::state::State;
use qfs_base::reply::MetaReply;

impl State {
    /// A change that was prepared is made. It takes the room that it needs, and no memory.
    fn make(&mut self, change: Prepared)
        requires may { MayMake self.old.image change }
        requires room { HasRoom (needs change) self.old }
        ensures image { self.new.image ≡ apply self.old.image (change_of change) }
        ensures room { TakesRoom (needs change) self.old self.new }
    {
        match change {
            Prepared::AddDirectory { path, entry } => self.add_directory(path, entry),
            Prepared::TakeDirectory { path, entry } => self.take_directory(path, entry),
            Prepared::AddFile {
                path,
                again,
                actor,
                command,
                len,
                entry,
            } => self.add_file(path, again, actor, command, len, entry),
            Prepared::CloseFile {
                file,
                actor,
                command,
            } => self.close_file(file, actor, command),
            Prepared::AbortFile { file } => self.abort_file(file),
            Prepared::RemoveFile { path, file, entry } => self.remove_file(path, file, entry),
            Prepared::MovePath {
                from,
                to,
                moved,
                entry,
            } => self.move_path(from, to, moved, entry),
            Prepared::GrantSlot {
                id,
                server,
                actor,
                lease,
            } => self.grant_slot(id, server, actor, lease),
            Prepared::FailGrant { id } => self.fail_grant(id),
            Prepared::GiveUp { id } => self.give_up(id),
            Prepared::ConfirmSlot { id } => self.confirm_slot(id),
            Prepared::EmptySlot { id } => self.empty_slot(id),
            Prepared::GiveLease { actor, file, until } => self.give_lease(actor, file, until),
            Prepared::EndLease { lease } => self.end_lease(lease),
            Prepared::MarkOrdered { number } => self.mark_ordered(number),
            Prepared::TakeCondemned { number } => self.take_condemned(number),
            Prepared::CondemnStray { server, life, key } => self.condemn_stray(server, life, key),
            Prepared::ServerUp {
                server,
                life,
                count,
            } => self.server_up(server, life, count),
            Prepared::ServerDown { server } => self.server_down(server),
            Prepared::ServerLeaves { server } => self.server_leaves(server),
            Prepared::ServerSleeps { server, until } => self.server_sleeps(server, until),
            Prepared::ClockTicks => self.tick(),
            Prepared::DropActor { actor } => self.drop_actor(actor),
        }
    }

    /// Changes that were prepared are made, one after another. No number of a file, a lease or a
    /// condemned copy, and no place of the file history, is too high after that.
    fn make_all(&mut self, changes: Vec<Prepared>)
        requires may { MayMakeAll self.old.image changes.items }
        requires room { HasRoom (needs_all changes.items) self.old }
        ensures image { self.new.image ≡ apply_all (changes_of changes.items) self.old.image }
        ensures fit { IsTrue (counters_fit self.new.image) }
    {
        for change in changes {
            self.make(change);
        }
    }

    /// A plan is carried out, and the turn rises. The room of its changes was reserved before, so
    /// it takes no memory and can't fail. This is what the definition does where it decides so.
    pub fn carry_out(&mut self, plan: Plan) -> MetaReply
        requires may { MayMakeAll self.old.image plan.changes.items }
        requires room { HasRoom (needs_all plan.changes.items) self.old }
        ensures image { self.new.image
            ≡ next_turn (apply_all (changes_of plan.changes.items) self.old.image) }
        ensures reply { result ≡ plan.reply }
        ensures fit { IsTrue (counters_fit
            (apply_all (changes_of plan.changes.items) self.old.image)) }
        ensures decided { (decision : Decision) → IsPlan self.old.image decision plan
            → carry_out self.old.image decision
            ≡ record { meta = self.new.image; reply = result } }
    {
        let Plan { changes, reply } = plan;
        self.make_all(changes);
        self.turn = self.turn.saturating_add(1);
        reply
    }
}
