//! Rows that are put into a table one after another.
ghost use Rattle.std.specs.Prelude.{◌≡◌, ◌≤◌, ◌+◌, [], length, IfOk};
ghost use Rattle.qfs_base.specs.Table.{place_all};
ghost use Rattle.qfs_names.specs.Names.{open_paths};
ghost use Rattle.qfs_names.specs.Trees.{file_cmp};

use crate::kinds::is_open;
use crate::paths::copy_path;
use crate::row::{NameRow, UnclosedRow};
use qfs_table::{Row, Table};
use std::alloc::{AllocError, Global};

/// Puts each of these rows at its place. It takes no memory.
pub fn place_all<T: Row>(table: &mut Table<T>, rows: Vec<T>)
    requires { length rows.items ≤ table.old.spare }
    ensures rows { table.new.rows ≡ place_all T.cmp rows.items table.old.rows }
    ensures spare { table.old.spare ≤ table.new.spare + length rows.items }
{
    for row in rows {
        table.insert(row);
    }
}

/// The unclosed files among these rows, with copies of their paths.
pub fn open_paths(alloc: Global, rows: &[NameRow]) -> Result<Vec<UnclosedRow>, AllocError>
    ensures { IfOk result (λ paths. paths.items ≡ open_paths rows.now) }
{
    let mut paths = Vec::new(alloc);
    for row in rows {
        if is_open(row) {
            let path = copy_path(alloc, &row.path)?;
            paths.push(UnclosedRow {
                file: row.file,
                path,
            })?;
        }
    }
    Ok(paths)
}

/// The same by file.
pub fn open_table(alloc: Global, rows: &[NameRow]) -> Result<Table<UnclosedRow>, AllocError>
    ensures { IfOk result (λ table. table.rows ≡ place_all file_cmp (open_paths rows.now) []) }
{
    let paths = open_paths(alloc, rows)?;
    let mut table = Table::new(alloc);
    table.reserve(paths.len())?;
    place_all(&mut table, paths);
    Ok(table)
}
