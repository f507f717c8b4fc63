//! The log. It goes on behind the newest checkpoint; the other disk takes the next one.
ghost use Rattle.std.specs.Prelude.{◌≡◌, ◌⊎◌, ◌<◌, ◌^◌, ◌+◌, ℕ, Bool, true, false, List, [], ◌++◌, ◌∷◌, Option, None, Some, OnOk, OnErr, IfOk, IfSome, IsTrue, length, not};
ghost use Rattle.qfs_device.specs.Fault.{Counts};
ghost use Rattle.qfs_disk.specs.Disk.{Only};
ghost use Rattle.qfs_disk.specs.Moves.{Moves};
ghost use Rattle.qfs_log.specs.Gates.{GateWas, Opened};
ghost use Rattle.qfs_log.specs.Found.{Content, Found, with_body, found_by, found_in, loaded, FitsRecord, FitsImage, record_text, checkpoint_text, new_content, front_text};
ghost use Rattle.qfs_log.specs.Log.{AtAnyMoment, HasRoom, WhereEmpty, WhereStands, Placed, Stands, CurrentWas, OtherWas, MayBe, tail_test, other_test, left_of, right_of, CountsBoth, Empty, MayBeEmpty, empty_test};

use crate::gate::{clear_gate, close_gate, write_behind_gate};
use qfs_device::{DeviceError, MetaDisks};
use qfs_disk::LogDisk;
use std::alloc::{AllocError, Global};
use std::mem;

#[derive(Drop)]
pub struct Log<L: LogDisk> {
    /// The disk where the log is, and the other one.
    pub current: L,
    pub other: L,
    /// Whether the disk in use is the right one.
    pub right: bool,
    pub epoch: u64,
    /// The place of the closed gate that ends the log.
    pub gate: u64,
    /// Whether a crash leaves that gate closed, and the one at 0 of the other disk.
    pub settled: bool,
    pub other_settled: bool,
    /// A checkpoint failed: the gate of the other disk is to be closed.
    pub close_due: bool,
    /// A load or an append that failed left bytes behind the closed gate.
    pub tail_due: bool,
    /// The body of an append that failed.
    pub unsettled: Option<Vec<u8>>,
    pub alloc: Global,
}

impl<L: LogDisk> Log<L> {
    /// A log over two empty disks, on which no checkpoint was made yet. It makes no call of them.
    pub fn over_empty(alloc: Global, left: L, right: L) -> Log<L>
        ensures places { (result.current ≡ left) × (result.other ≡ right) × (result.right ≡ false) }
        ensures settled { result.unsettled ≡ None }
        ensures empty { IsTrue (L.tells left) → IsTrue (L.tells right) → Only [] (L.leaves left)
            → Only [] (L.leaves right) → Empty L.tells L.leaves result None }
    {
        Log {
            current: left,
            other: right,
            right: false,
            epoch: 0,
            gate: 0,
            settled: false,
            other_settled: false,
            close_due: false,
            tail_due: false,
            unsettled: None,
            alloc,
        }
    }

    /// Hands the two disks back, each at its side.
    pub fn into_disks(self) -> MetaDisks<L>
        ensures left { result.left ≡ Some (left_of self) }
        ensures right { result.right ≡ Some (right_of self) }
    {
        let (left, right) = if self.right {
            (self.other, self.current)
        } else {
            (self.current, self.other)
        };
        MetaDisks {
            left: Some(left),
            right: Some(right),
        }
    }

    /// Closes the gate of the other disk, where a checkpoint failed.
    pub fn settle_other(&mut self) -> Result<(), DeviceError>
        requires { Placed L.length_of self.old }
        ensures placed { Placed L.length_of self.new }
        ensures same { (self.new.current ≡ self.old.current) × (self.new.epoch ≡ self.old.epoch)
            × (self.new.right ≡ self.old.right) × (self.new.settled ≡ self.old.settled)
            × (self.new.unsettled ≡ self.old.unsettled) }
        ensures ok { OnOk result (WhereStands L.tells L.leaves L.content self.old (λ content rival.
            Stands L.tells L.leaves L.content self.new content None)) }
        ensures err { OnErr result (WhereStands L.tells L.leaves L.content self.old
            (λ content rival. Stands L.tells L.leaves L.content self.new content rival)) }
        ensures crash { WhereStands L.tells L.leaves L.content self.old (λ content rival.
            Moves L.clock L.leaves L.left_since (λ _ c. OtherWas self.old rival c)
            self.old.other self.new.other) }
        ensures counts { Counts (L.faults self.old.other) (L.faults self.new.other) result }
    {
        if !self.close_due {
            return Ok(());
        }
        close_gate(&mut self.other, 0, &mut self.other_settled)?;
        self.close_due = false;
        Ok(())
    }

    /// Takes away what an append that failed left behind the log.
    pub fn repair(&mut self) -> Result<(), DeviceError>
        requires { Placed L.length_of self.old }
        ensures placed { Placed L.length_of self.new }
        ensures same { (self.new.other ≡ self.old.other) × (self.new.epoch ≡ self.old.epoch)
            × (self.new.right ≡ self.old.right) × (self.new.gate ≡ self.old.gate) }
        ensures settled { OnOk result ((self.new.settled ≡ true) × ((self.new.unsettled ≡ None)
            × (self.new.tail_due ≡ false))) }
        ensures unsettled { OnErr result (self.new.unsettled ≡ self.old.unsettled) }
        ensures counts { Counts (L.faults self.old.current) (L.faults self.new.current) result }
        ensures stands { WhereStands L.tells L.leaves L.content self.old (λ content rival.
            Stands L.tells L.leaves L.content self.new content rival) }
        ensures crash { WhereStands L.tells L.leaves L.content self.old (λ content rival.
            Moves L.clock L.leaves L.left_since (λ _ c. CurrentWas self.old content c)
            self.old.current self.new.current) }
    {
        if !self.tail_due {
            return Ok(());
        }
        clear_gate(&mut self.current, self.gate, &mut self.settled)?;
        self.unsettled = None;
        self.tail_due = false;
        Ok(())
    }

    // Adds a record behind a log at rest. The tail is the record and a closed gate.
    fn append_at_rest(&mut self, body: Vec<u8>, tail: &[u8]) -> Result<(), DeviceError>
        requires placed { Placed L.length_of self.old }
        requires rest { self.old.tail_due ≡ false }
        requires fits { FitsRecord body.items }
        requires tail { tail.now ≡ record_text body.items ++ 0 ∷ [] }
        ensures placed { Placed L.length_of self.new }
        ensures same { (self.new.other ≡ self.old.other) × (self.new.epoch ≡ self.old.epoch)
            × (self.new.right ≡ self.old.right) }
        ensures ok { OnOk result (WhereStands L.tells L.leaves L.content self.old (λ content rival.
            Stands L.tells L.leaves L.content self.new (with_body content body.items) rival)) }
        ensures settled { OnOk result (self.new.unsettled ≡ None) }
        ensures err { OnErr result (WhereStands L.tells L.leaves L.content self.old
            (λ content rival. Stands L.tells L.leaves L.content self.new content rival)) }
        ensures unsettled { OnErr result (self.new.unsettled ≡ Some body) }
        ensures counts { Counts (L.faults self.old.current) (L.faults self.new.current) result }
        ensures crash { WhereStands L.tells L.leaves L.content self.old (λ content rival.
            Moves L.clock L.leaves L.left_since
            (λ _ c. GateWas false (front_text self.old.epoch content) (tail_test (Some body)) c)
            self.old.current self.new.current) }
    {
        self.unsettled = Some(body);
        self.tail_due = true;
        write_behind_gate(&mut self.current, self.gate, &mut self.settled, tail)?;
        self.unsettled = None;
        self.tail_due = false;
        self.settled = true;
        self.gate += tail.len() as u64;
        Ok(())
    }

    /// Adds a record. At `Ok` every crash leaves it.
    pub fn append(&mut self, body: &[u8]) -> Result<(), DeviceError>
        requires placed { Placed L.length_of self.old }
        requires fits { FitsRecord body.now }
        ensures placed { Placed L.length_of self.new }
        ensures ok { OnOk result (WhereStands L.tells L.leaves L.content self.old (λ content rival.
            Stands L.tells L.leaves L.content self.new (with_body content body.now) None)) }
        ensures settled { OnOk result (self.new.unsettled ≡ None) }
        ensures err { OnErr result (WhereStands L.tells L.leaves L.content self.old
            (λ content rival. Stands L.tells L.leaves L.content self.new content rival
            ⊎ Stands L.tells L.leaves L.content self.new content None)) }
        // A crash at any moment of the call leaves what might have been before, or that with the
        // record. The images of the two disks may be of different moments.
        ensures any_moment { WhereStands L.tells L.leaves L.content self.old (λ content rival.
            AtAnyMoment L.clock L.left_since self.old self.new
            (λ found. MayBe content self.old.unsettled rival found
            ⊎ (found ≡ loaded (with_body content body.now)))) }
        // After a failure the record that isn't settled is the one before, none or this one.
        ensures unsettled { OnErr result ((self.new.unsettled ≡ self.old.unsettled)
            ⊎ IfSome self.new.unsettled (λ kept. kept.items ≡ body.now)) }
        ensures side { self.new.right ≡ self.old.right }
        ensures counts { CountsBoth (L.faults self.old.current) (L.faults self.new.current)
            (L.faults self.old.other) (L.faults self.new.other) result }
    {
        let tail = record_bytes(self.alloc, body)?;
        let kept = body.to_vec(self.alloc)?;
        self.settle_other()?;
        self.repair()?;
        self.append_at_rest(kept, &tail)
    }

    /// Writes a checkpoint. At `Ok` the log goes on behind it, on the other disk, and every crash
    /// leaves it.
    pub fn checkpoint(&mut self, image: &[u8]) -> Result<(), DeviceError>
        requires placed { Placed L.length_of self.old }
        requires fits { FitsImage image.now }
        ensures placed { Placed L.length_of self.new }
        ensures ok { OnOk result (HasRoom self.old.epoch
            → WhereStands L.tells L.leaves L.content self.old (λ content rival.
            Stands L.tells L.leaves L.content self.new (new_content image.now) None)) }
        ensures settled { OnOk result (self.new.unsettled ≡ None) }
        ensures err { OnErr result (HasRoom self.old.epoch
            → WhereStands L.tells L.leaves L.content self.old
            (λ content rival. Stands L.tells L.leaves L.content self.new content rival
            ⊎ Stands L.tells L.leaves L.content self.new content (Some image.now))) }
        // A crash at any moment of the call leaves what might have been before, or the checkpoint.
        // The images of the two disks may be of different moments.
        ensures any_moment { HasRoom self.old.epoch
            → WhereStands L.tells L.leaves L.content self.old (λ content rival.
            AtAnyMoment L.clock L.left_since self.old self.new
            (λ found. MayBe content self.old.unsettled rival found
            ⊎ (found ≡ loaded (new_content image.now)))) }
        ensures side { OnOk result (self.new.right ≡ not self.old.right) }
        ensures counts { OnOk result ((L.faults self.new.current ≡ L.faults self.old.other) ×
            (L.faults self.new.other ≡ L.faults self.old.current)) }
        // A call that fails leaves the disks in their places.
        ensures stays { OnErr result (self.new.right ≡ self.old.right) }
        ensures unsettled { OnErr result (self.new.unsettled ≡ self.old.unsettled) }
        ensures failed { OnErr result (CountsBoth (L.faults self.old.current)
            (L.faults self.new.current) (L.faults self.old.other)
            (L.faults self.new.other) result) }
    {
        let epoch = self.epoch.saturating_add(1);
        let tail = checkpoint_bytes(self.alloc, epoch, image)?;
        self.write_other(image, &tail)?;
        mem::swap(&mut self.current, &mut self.other);
        self.right = !self.right;
        self.epoch = epoch;
        self.gate = tail.len() as u64;
        self.settled = true;
        self.other_settled = false;
        self.close_due = false;
        self.tail_due = false;
        self.unsettled = None;
        Ok(())
    }

    /// The first checkpoint, with epoch 1 on the left disk.
    pub fn first_checkpoint(&mut self, image: &[u8]) -> Result<(), DeviceError>
        requires fits { FitsImage image.now }
        requires left { self.old.right ≡ false }
        requires there { self.old.settled ≡ true → 0 < L.length_of self.old.current }
        ensures placed { OnOk result (Placed L.length_of self.new) }
        ensures there { OnErr result (self.new.settled ≡ true → 0 < L.length_of self.new.current) }
        ensures left { self.new.right ≡ false }
        ensures ok { OnOk result (WhereEmpty L.tells L.leaves self.old
            (λ rival. Stands L.tells L.leaves L.content self.new (new_content image.now) None)) }
        ensures err { OnErr result (WhereEmpty L.tells L.leaves self.old
            (λ rival. Empty L.tells L.leaves self.new rival
            ⊎ Empty L.tells L.leaves self.new (Some image.now))) }
        ensures any_moment { WhereEmpty L.tells L.leaves self.old (λ rival. (l r : List ℕ)
            → L.left_since self.new.current (L.clock self.old.current) l
            → L.left_since self.new.other (L.clock self.old.other) r
            → MayBeEmpty rival (found_in l r) ⊎ (found_in l r ≡ loaded (new_content image.now))) }
        ensures side { (self.new.right ≡ self.old.right) × (self.new.other ≡ self.old.other) }
        ensures counts { Counts (L.faults self.old.current) (L.faults self.new.current) result }
    {
        let tail = checkpoint_bytes(self.alloc, 1, image)?;
        clear_gate(&mut self.current, 0, &mut self.settled)?;
        write_behind_gate(&mut self.current, 0, &mut self.settled, &tail)?;
        self.epoch = 1;
        self.gate = tail.len() as u64;
        self.settled = true;
        self.other_settled = false;
        self.close_due = false;
        self.tail_due = false;
        self.unsettled = None;
        Ok(())
    }

    /// What a crash now may leave of a log that stands.
    pub fn crash_now(&self)
        ensures { WhereStands L.tells L.leaves L.content self.now (λ content rival. (l r : List ℕ)
            → L.leaves (left_of self.now) l → L.leaves (right_of self.now) r
            → MayBe content self.now.unsettled rival (found_in l r)) }
    {}

    // Writes a checkpoint to the other disk: closes its gate, cuts, writes the image, and opens the
    // gate.
    fn write_other(&mut self, image: &[u8], tail: &[u8]) -> Result<(), DeviceError>
        requires placed { Placed L.length_of self.old }
        requires fits { FitsImage image.now }
        requires tail { HasRoom self.old.epoch →
            tail.now ≡ checkpoint_text (self.old.epoch + 1) image.now ++ 0 ∷ [] }
        ensures placed { OnErr result (Placed L.length_of self.new) }
        ensures same { (self.new.current ≡ self.old.current) × (self.new.right ≡ self.old.right)
            × (self.new.epoch ≡ self.old.epoch) }
        ensures size { OnOk result (length tail.now < L.length_of self.new.other) }
        ensures fits { OnOk result (L.length_of self.new.other < 2 ^ 64) }
        ensures ok { OnOk result (WhereStands L.tells L.leaves L.content self.old (λ content rival.
            IsTrue (L.tells self.new.other)
            × Opened (L.leaves self.new.other) (L.content self.new.other) [] tail.now)) }
        ensures err { OnErr result (HasRoom self.old.epoch
            → WhereStands L.tells L.leaves L.content self.old
            (λ content rival. Stands L.tells L.leaves L.content self.new content rival
            ⊎ Stands L.tells L.leaves L.content self.new content (Some image.now))) }
        ensures crash { HasRoom self.old.epoch
            → WhereStands L.tells L.leaves L.content self.old (λ content rival.
            Moves L.clock L.leaves L.left_since (λ _ o. OtherWas self.old rival o
            ⊎ GateWas false [] (other_test self.old.right self.old.epoch (Some image.now)) o)
            self.old.other self.new.other) }
        ensures unsettled { self.new.unsettled ≡ self.old.unsettled }
        ensures counts { Counts (L.faults self.old.other) (L.faults self.new.other) result }
    {
        self.close_due = true;
        clear_gate(&mut self.other, 0, &mut self.other_settled)?;
        write_behind_gate(&mut self.other, 0, &mut self.other_settled, tail)
    }
}

// A checkpoint behind its gate, and the closed gate of an empty log behind it.
fn checkpoint_bytes(alloc: Global, epoch: u64, image: &[u8]) -> Result<Vec<u8>, AllocError>
    ensures { IfOk result (λ text. text.items ≡ checkpoint_text epoch image.now ++ 0 ∷ []) }
{
    let mut text = Vec::new(alloc);
    text.extend_from_slice(&epoch.to_be_bytes())?;
    text.extend_from_slice(&(image.len() as u64).to_be_bytes())?;
    text.extend_from_slice(image)?;
    text.push(0)?;
    Ok(text)
}

// A record and a closed gate behind it.
fn record_bytes(alloc: Global, body: &[u8]) -> Result<Vec<u8>, AllocError>
    requires { FitsRecord body.now }
    ensures { IfOk result (λ text. text.items ≡ record_text body.now ++ 0 ∷ []) }
{
    let mut text = Vec::new(alloc);
    text.extend_from_slice(&(body.len() as u32).to_be_bytes())?;
    text.extend_from_slice(body)?;
    text.push(0)?;
    Ok(text)
}
