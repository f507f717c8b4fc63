//! The tree as the list of its entries, and back.
ghost use Rattle.std.specs.Prelude.{◌≡◌, ◌^◌, map, IfOk};
ghost use Rattle.qfs_model_meta.specs.Grammar.{IsTree};
ghost use Rattle.qfs_names.specs.Names.{entry_of, row_of};
ghost use Rattle.qfs_names.specs.Trees.{as_row};

use crate::fill::open_table;
use crate::paths::copy_path;
use crate::row::NameRow;
use crate::tree::Tree;
use qfs_base::image::{TreeEntry, TreeList};
use qfs_base::listing::Listing;
use qfs_table::{Run, Table};
use std::alloc::{AllocError, Global};

/// An entry as a row.
fn row_from(entry: TreeEntry) -> NameRow
    ensures { result ≡ row_of entry }
{
    let TreeEntry { path, file, closed } = entry;
    NameRow { path, file, closed }
}

/// Entries as rows.
fn rows_from(alloc: Global, entries: Vec<TreeEntry>) -> Result<Vec<NameRow>, AllocError>
    ensures { IfOk result (λ rows. rows.items ≡ map row_of entries.items) }
{
    let mut rows = Vec::with_capacity(alloc, entries.len())?;
    'entries: for entry in entries {
        rows.push(row_from(entry))?;
    }
    Ok(rows)
}

/// Rows as entries.
fn entries_of(alloc: Global, rows: Run<'_, NameRow>) -> Result<TreeList, AllocError>
    ensures { IfOk result (λ entries. entries ≡ map entry_of rows.entry) }
{
    let mut entries = Listing::new(alloc);
    for row in rows {
        let path = copy_path(alloc, &row.path)?;
        entries.push(TreeEntry {
            path,
            file: row.file,
            closed: row.closed,
        })?;
    }
    Ok(entries)
}

impl Tree {
    /// The directories and files, by path.
    pub fn entries(&self) -> Result<TreeList, AllocError>
        ensures { IfOk result (λ entries. entries ≡ map entry_of self.now.rows) }
    {
        entries_of(self.alloc, self.names.iter())
    }

    /// The tree of these entries, which have to be those of a name tree.
    pub fn from_entries(alloc: Global, entries: TreeList) -> Result<Tree, AllocError>
        requires { IsTree (2 ^ 32) (map (λ entry. as_row (row_of entry)) entries) }
        ensures rows { IfOk result (λ tree. tree.rows ≡ map row_of entries) }
        ensures spare { IfOk result (λ tree. tree.spare ≡ 0) }
    {
        let rows = rows_from(alloc, entries.into_vec())?;
        let unclosed = open_table(alloc, rows.as_slice())?;
        let names = Table::from_rows(alloc, rows)?;
        Ok(Tree {
            alloc,
            names,
            unclosed,
            spare: 0,
        })
    }
}
