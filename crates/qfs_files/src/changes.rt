//! What an entry does to the tables.
ghost use Rattle.std.specs.Prelude.{◌≡◌, ◌++◌, drop, fold, map, IfOk, OnOk};
ghost use Rattle.qfs_base.specs.Table.{change_where, without};
ghost use Rattle.qfs_files.specs.declared.row.FileRow.{FileRow};
ghost use Rattle.qfs_files.specs.Rows.{at_names, closed_by};
ghost use Rattle.qfs_files.specs.Open.{IsCovered, finds};

use crate::key::Close;
use crate::names::{copy_names, moved_names};
use crate::row::{FileRow, Holding, OpenRow};
use qfs_base::lists::Bytes;
use qfs_table::{Run, Table};
use std::alloc::{AllocError, Global};

/// Keeps the path of a row, if it is that of an unclosed file. On want of memory the paths stay.
pub fn keep_open(
    alloc: Global,
    places: &mut Table<OpenRow>,
    row: &FileRow,
) -> Result<(), AllocError>
    ensures own { OnOk result (IsCovered places.new.rows row.now) }
    ensures others { (row : FileRow) → IsCovered places.old.rows row
        → IsCovered places.new.rows row }
{
    if let Holding::Unclosed(file) = row.holding {
        let names = copy_names(alloc, row.names.as_slice())?;
        places.reserve(1)?;
        places.insert(OpenRow { file, names });
    }
    Ok(())
}

/// A file is closed wherever it stands unclosed.
pub fn close_rows(rows: &mut Table<FileRow>, places: Run<'_, OpenRow>, close: &Close)
    ensures { rows.new.rows
        ≡ fold (λ rows kept. change_where (finds kept)
        (closed_by close.now.file close.now.actor close.now.command) rows)
        rows.old.rows places.entry }
{
    for row in places {
        rows.change(row, close);
    }
}

/// A file is taken out wherever it stands unclosed.
pub fn take_rows(rows: &mut Table<FileRow>, places: Run<'_, OpenRow>)
    ensures { rows.new.rows
        ≡ fold (λ rows kept. without (finds kept) rows) rows.old.rows places.entry }
{
    for row in places {
        rows.remove(row);
    }
}

/// These rows, whose first `depth` names are `to` from then on.
pub fn moved_rows(
    alloc: Global,
    depth: usize,
    to: &[Bytes],
    rows: Run<'_, FileRow>,
) -> Result<Vec<FileRow>, AllocError>
    ensures { IfOk result (λ then. then.items
        ≡ map (λ (row : FileRow). at_names (to.now ++ drop depth row.names) row) rows.entry) }
{
    let mut then = Vec::new(alloc);
    for row in rows {
        let names = moved_names(alloc, depth, to, row.names.as_slice())?;
        let holding = row.holding;
        then.push(FileRow { names, holding })?;
    }
    Ok(then)
}
