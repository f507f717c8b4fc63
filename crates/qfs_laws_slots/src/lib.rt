//! Laws of the metaserver's slots, leases and condemned copies: the lemma files of specs/ say what
//! each change leaves of them. Each function here does nothing, and its contract is a law.
#![tactic(auto)]

ghost use Rattle.std.specs.Prelude.{◌≡◌, ℕ, List, IsTrue, false};
ghost use Rattle.std.specs.List.{list_any, IsDistinct};
ghost use Rattle.qfs_base.specs.declared.chunk.BlockId.{BlockId};
ghost use Rattle.qfs_base.specs.declared.chunk.Copy.{Copy};
ghost use Rattle.qfs_base.specs.declared.image.CondemnedRow.{CondemnedRow};
ghost use Rattle.qfs_base.specs.declared.image.Lease.{Lease};
ghost use Rattle.qfs_base.specs.declared.image.SlotRecord.{SlotRecord};
ghost use Rattle.qfs_base.specs.declared.image.SlotRow.{SlotRow};
ghost use Rattle.qfs_model_meta.specs.Condemned.{unblock_all};
ghost use Rattle.qfs_model_meta.specs.Grammar.{IsLeaseList, IsCondemnedList};
ghost use Rattle.qfs_model_meta.specs.Leases.{give_lease, end_lease};
ghost use Rattle.qfs_model_meta.specs.Past.{SlotCopy, same_version, is_copy};
ghost use Rattle.qfs_model_meta.specs.Slots.{slot_at, with_slot, is_slot};
ghost use Rattle.qfs_laws_slots.specs.Slots.{row_of};

/// The record that is placed for a slot is found there, and every other slot has the record it had.
pub fn placed_slots_are_found()
    ensures same { (block : BlockId) (slot : ℕ) (state : SlotRecord) (slots : List SlotRow)
        → slot_at (with_slot block slot state slots) block slot ≡ state }
    ensures other { (block other : BlockId) (slot number : ℕ) (state : SlotRecord)
        (slots : List SlotRow)
        → is_slot other number (row_of block slot state) ≡ false
        → slot_at (with_slot block slot state slots) other number ≡ slot_at slots other number }
{}

/// Where each version was granted once, two copies of a slot that were granted are one if they have
/// one version.
pub fn versions_name_copies()
    ensures { (block : BlockId) (slot : ℕ) (first second : Copy) (granted : List SlotCopy)
        → IsDistinct same_version granted → first.version ≡ second.version
        → IsTrue (list_any (is_copy block slot first) granted)
        → IsTrue (list_any (is_copy block slot second) granted) → first ≡ second }
{}

/// A lease that is given, and one that ends, leave leases and condemned copies that fit together.
pub fn leases_fit_condemned_copies()
    ensures given { (servers next next_lease actor file until : ℕ) (leases : List Lease)
        (rows : List CondemnedRow)
        → IsLeaseList next_lease leases → IsCondemnedList servers next leases rows
        → IsCondemnedList servers next (give_lease next_lease actor file until leases) rows }
    ensures ended { (servers next lease : ℕ) (leases : List Lease) (rows : List CondemnedRow)
        → IsCondemnedList servers next leases rows
        → IsCondemnedList servers next (end_lease lease leases) (unblock_all lease rows) }
{}
