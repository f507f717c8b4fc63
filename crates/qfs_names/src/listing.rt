//! What stands right below a directory.
ghost use Rattle.std.specs.Prelude.{◌≡◌, ◌+◌, ◌<◌, [], ◌++◌, find, length, take, true, IfOk, OnOk};
ghost use Rattle.std.specs.List.{cons_option};
ghost use Rattle.std.specs.Option.{option_copied};
ghost use Rattle.std.specs.Ordering.{is_lt};
ghost use Rattle.qfs_base.specs.NameTree.{is_within, names_below};
ghost use Rattle.qfs_names.specs.declared.row.NameRow.{NameRow};
ghost use Rattle.qfs_names.specs.Names.{child_at, standing_of, within_order};

use crate::kinds::kind_at_row;
use crate::refusals::is_row_within;
use crate::row::NameRow;
use crate::tree::Tree;
use qfs_base::listing::Listing;
use qfs_base::lists::{Bytes, Name, Names};
use qfs_base::path::Path;
use std::alloc::{AllocError, Global};

/// Puts the name of a row within a directory at the end, if it stands right below.
fn push_child(
    alloc: Global,
    directory: &[Bytes],
    row: &NameRow,
    found: &mut Names,
) -> Result<(), AllocError>
    requires { is_within directory.now row.now.path ≡ true }
    ensures { OnOk result (found.new ≡ found.old ++ cons_option (child_at directory.now row.now) []) }
{
    let path = &row.path;
    let names = path.names.as_slice();
    if names.len() != directory.len() + 1 {
        return Ok(());
    }
    let part = Listing::from_slice(alloc, names[directory.len()].as_slice())?;
    let kind = kind_at_row(row);
    found.push(Name { part, kind })
}

impl Tree {
    /// No names.
    fn no_names(&self) -> Names
        ensures { result ≡ [] }
    {
        Listing::new(self.alloc)
    }

    /// Puts the name of a row within a directory at the end, if it stands right below.
    fn push_child(
        &self,
        directory: &[Bytes],
        row: &NameRow,
        found: &mut Names,
    ) -> Result<(), AllocError>
        requires { is_within directory.now row.now.path ≡ true }
        ensures { OnOk result
            (found.new ≡ found.old ++ cons_option (child_at directory.now row.now) []) }
    {
        push_child(self.alloc, directory, row, found)
    }

    /// The first row behind the child of a directory at which, or below which, a row stands.
    fn row_beyond_child(&self, directory: &[Bytes], row: &NameRow) -> Option<&NameRow>
        requires { length directory.now < length row.now.path }
        ensures { option_copied result ≡ find (λ (other : NameRow).
            is_lt (within_order (take (length directory.now + 1) row.now.path) other.path))
            self.now.rows }
    {
        let path = &row.path;
        let names = path.names.as_slice();
        self.row_beyond(&names[..directory.len() + 1])
    }

    /// The names right below a directory, in the order of their bytes, each with what it stands
    /// for. It goes from one of them to the next, over all that lies between.
    pub fn names_below(&self, path: &Path) -> Result<Names, AllocError>
        ensures { IfOk result (λ names. names ≡ names_below (standing_of self.now.rows) path.now) }
    {
        self.children(path.names.as_slice())
    }

    /// The names right below a directory.
    fn children(&self, directory: &[Bytes]) -> Result<Names, AllocError>
        ensures { IfOk result
            (λ names. names ≡ names_below (standing_of self.now.rows) directory.now) }
    {
        let mut found = self.no_names();
        let mut next = self.row_behind(directory);
        'children: while let Some(row) = next {
            if !is_row_within(directory, row) {
                return Ok(found);
            }
            self.push_child(directory, row, &mut found)?;
            next = self.row_beyond_child(directory, row);
        }
        Ok(found)
    }
}
