//! What stands right below a directory.
ghost use Rattle.std.specs.Prelude.{◌≡◌, ◌++◌, [], IfOk, OnOk};
ghost use Rattle.std.specs.List.{cons_option};
ghost use Rattle.std.specs.Option.{option_copied};
ghost use Rattle.qfs_base.specs.NameTree.{name_in, names_below};
ghost use Rattle.qfs_files.specs.Rows.{child_at, standing_of};

use crate::refusals::{is_within, kind_of};
use crate::row::FileRow;
use qfs_base::listing::Listing;
use qfs_base::lists::{Bytes, Name, Names};
use qfs_table::Run;
use std::alloc::{AllocError, Global};

/// The name of a path in a directory, if it lies right below it.
#[tactic(auto, unfolding(qfs_base::specs::NameTree::name_in, qfs_base::specs::NameTree::only_name))]
fn name_in<'a>(directory: &[Bytes], names: &'a [Bytes]) -> Option<&'a Bytes>
    ensures { option_copied result ≡ name_in directory.now names.now }
{
    if !is_within(directory, names) {
        return None;
    }
    match &names[directory.len()..] {
        [name] => Some(name),
        _ => None,
    }
}

/// Puts the name of a row at the end, if it lies right below a directory.
fn push_child(
    alloc: Global,
    directory: &[Bytes],
    row: &FileRow,
    found: &mut Names,
) -> Result<(), AllocError>
    ensures { OnOk result
        (found.new ≡ found.old ++ cons_option (child_at directory.now row.now) []) }
{
    if let Some(name) = name_in(directory, row.names.as_slice()) {
        let part = Listing::from_slice(alloc, name.as_slice())?;
        let kind = kind_of(&row.holding);
        found.push(Name { part, kind })?;
    }
    Ok(())
}

/// The names of these rows right below a directory, each with what it stands for.
#[tactic(auto, using(crate::proofs::RuleLaws::children))]
pub fn names_below(
    alloc: Global,
    directory: &[Bytes],
    rows: Run<'_, FileRow>,
) -> Result<Names, AllocError>
    ensures { IfOk result
        (λ names. names ≡ names_below (standing_of rows.entry) directory.now) }
{
    let mut found = Listing::new(alloc);
    for row in rows {
        push_child(alloc, directory, row, &mut found)?;
    }
    Ok(found)
}
