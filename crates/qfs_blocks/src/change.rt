//! The changes of rows in their place.
ghost use Rattle.std.specs.Prelude.{◌≤◌};

use crate::row::{EntryRow, RecordRow};
use crate::state::{NewGrant, confirmed, emptied, failed, granted, sealed, ungranted};
use qfs_base::numbers::ServerId;
use qfs_table::Change;

/// A slot gets a grant.
#[derive(Drop)]
pub struct GrantTo {
    pub new: NewGrant,
}

impl Change<RecordRow> for GrantTo {
    ghost use Rattle.qfs_model_meta.specs.Slots.{change_state, granted_slot};
    ghost use Rattle.qfs_blocks.specs.KeyLaws.{change_keeps};

    ghost changed = { λ it. change_state (granted_slot it.new.server it.new.life it.new.actor it.new.lease) };

    #[tactic(auto, unfolding(qfs_model_meta::specs::Slots::change_state))]
    fn change(&self, row: &mut RecordRow) {
        row.set_state(granted(row.state(), self.new));
    }

    ghost keeps_key = { λ it. change_keeps (granted_slot it.new.server it.new.life it.new.actor it.new.lease) };
}

/// The pending grant of a slot is gone.
#[derive(Drop)]
pub struct Ungrant;

impl Change<RecordRow> for Ungrant {
    ghost use Rattle.qfs_model_meta.specs.Slots.{change_state, ungranted_slot};
    ghost use Rattle.qfs_blocks.specs.KeyLaws.{change_keeps};

    ghost changed = { λ _. change_state ungranted_slot };

    #[tactic(auto, unfolding(qfs_model_meta::specs::Slots::change_state))]
    fn change(&self, row: &mut RecordRow) {
        row.set_state(ungranted(row.state()));
    }

    ghost keeps_key = { λ it. change_keeps (ungranted_slot) };
}

/// A server failed a put of a slot.
#[derive(Drop)]
pub struct Fail {
    pub server: ServerId,
    ghost low: { 1 ≤ server },
    ghost high: { server ≤ 64 },
}

impl Change<RecordRow> for Fail {
    ghost use Rattle.qfs_model_meta.specs.Slots.{change_state, failed_slot};
    ghost use Rattle.qfs_blocks.specs.KeyLaws.{change_keeps};

    ghost changed = { λ it. change_state (failed_slot it.server) };

    #[tactic(auto, unfolding(qfs_model_meta::specs::Slots::change_state))]
    fn change(&self, row: &mut RecordRow) {
        row.set_state(failed(row.state(), self.server));
    }

    ghost keeps_key = { λ it. change_keeps (failed_slot it.server) };
}

/// The pending grant of a slot becomes current.
#[derive(Drop)]
pub struct Confirm;

impl Change<RecordRow> for Confirm {
    ghost use Rattle.qfs_model_meta.specs.Slots.{change_state, confirmed_slot};
    ghost use Rattle.qfs_blocks.specs.KeyLaws.{change_keeps};

    ghost changed = { λ _. change_state confirmed_slot };

    #[tactic(auto, unfolding(qfs_model_meta::specs::Slots::change_state))]
    fn change(&self, row: &mut RecordRow) {
        row.set_state(confirmed(row.state()));
    }

    ghost keeps_key = { λ it. change_keeps (confirmed_slot) };
}

/// The same, as its file is closed.
#[derive(Drop)]
pub struct Seal;

impl Change<RecordRow> for Seal {
    ghost use Rattle.qfs_model_meta.specs.Slots.{change_state, sealed_slot};
    ghost use Rattle.qfs_blocks.specs.KeyLaws.{change_keeps};

    ghost changed = { λ _. change_state sealed_slot };

    #[tactic(auto, unfolding(qfs_model_meta::specs::Slots::change_state))]
    fn change(&self, row: &mut RecordRow) {
        row.set_state(sealed(row.state()));
    }

    ghost keeps_key = { λ it. change_keeps (sealed_slot) };
}

/// A slot loses its copies.
#[derive(Drop)]
pub struct Empty;

impl Change<RecordRow> for Empty {
    ghost use Rattle.qfs_model_meta.specs.Slots.{change_state, emptied_slot};
    ghost use Rattle.qfs_blocks.specs.KeyLaws.{change_keeps};

    ghost changed = { λ _. change_state emptied_slot };

    #[tactic(auto, unfolding(qfs_model_meta::specs::Slots::change_state))]
    fn change(&self, row: &mut RecordRow) {
        row.set_state(emptied(row.state()));
    }

    ghost keeps_key = { λ it. change_keeps (emptied_slot) };
}

/// The deletion of a condemned copy is ordered.
#[derive(Drop)]
pub struct Order;

impl Change<EntryRow> for Order {
    ghost use Rattle.std.specs.Prelude.{refl};
    ghost use Rattle.qfs_blocks.specs.Entries.{ordered_entry};

    ghost changed = { λ _. ordered_entry };

    fn change(&self, row: &mut EntryRow) {
        row.set_ordered();
    }

    ghost keeps_key = { λ _ a b. refl };
}
