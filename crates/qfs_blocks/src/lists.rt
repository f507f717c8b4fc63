//! Slot records and condemned copies as lists, and back.
ghost use Rattle.std.specs.Prelude.{◌≡◌, ◌<◌, IfOk};
ghost use Rattle.qfs_base.specs.Table.{Each, IsRising};
ghost use Rattle.qfs_model_meta.specs.Slots.{slot_cmp};
ghost use Rattle.qfs_blocks.specs.Entries.{entry_cmp};

use crate::blocks::Blocks;
use crate::entries::Entries;
use crate::records::Records;
use crate::row::{EntryRow, RecordRow};
use qfs_base::image::{CondemnedList, RecordList};
use qfs_base::listing::Listing;
use qfs_table::Run;
use std::alloc::{AllocError, Global};

/// The rows of a list of records.
pub fn record_rows(alloc: Global, list: RecordList) -> Result<Vec<RecordRow>, AllocError>
    ensures { IfOk result (λ rows. rows.items ≡ list) }
{
    let mut rows = Vec::with_capacity(alloc, list.len())?;
    for row in list.into_vec() {
        rows.push(RecordRow::new(row))?;
    }
    Ok(rows)
}

/// The list of these records.
pub fn record_list(alloc: Global, rows: Run<'_, RecordRow>) -> Result<RecordList, AllocError>
    ensures { IfOk result (λ list. list ≡ rows.entry) }
{
    let mut list = Listing::new(alloc);
    for row in rows {
        list.push(row.row())?;
    }
    Ok(list)
}

/// The list of these condemned copies.
pub fn entry_list(alloc: Global, rows: Run<'_, EntryRow>) -> Result<CondemnedList, AllocError>
    ensures { IfOk result (λ list. list ≡ rows.entry) }
{
    let mut list = Listing::new(alloc);
    for row in rows {
        list.push(row.entry())?;
    }
    Ok(list)
}

impl Blocks {
    /// The slot records, by slot, and the condemned copies, by number.
    pub fn lists(&self, alloc: Global) -> Result<(RecordList, CondemnedList), AllocError>
        ensures slots { IfOk result (λ lists. lists.0 ≡ self.now.slots) }
        ensures condemned { IfOk result (λ lists. lists.1 ≡ self.now.condemned) }
    {
        let records = self.records.list(alloc)?;
        let condemned = self.entries.list(alloc)?;
        Ok((records, condemned))
    }

    /// The slots and condemned copies of these lists, which are in order, with the number that the
    /// next condemned copy gets.
    pub fn from_lists(
        alloc: Global,
        records: RecordList,
        condemned: CondemnedList,
        next: u64,
    ) -> Result<Blocks, AllocError>
        requires slots { IsRising slot_cmp records }
        requires condemned { IsRising entry_cmp condemned }
        requires numbers { Each (λ entry. entry.condemned.number < next) condemned }
        ensures slots { IfOk result (λ it. it.slots ≡ records) }
        ensures condemned { IfOk result (λ it. it.condemned ≡ condemned) }
        ensures next { IfOk result (λ it. it.next ≡ next) }
        ensures spare_slots { IfOk result (λ it. it.spare_slots ≡ 0) }
        ensures spare_condemned { IfOk result (λ it. it.spare_condemned ≡ 0) }
    {
        let records = Records::from_list(alloc, records)?;
        let entries = Entries::from_list(alloc, condemned, next)?;
        Ok(Blocks { records, entries })
    }
}
