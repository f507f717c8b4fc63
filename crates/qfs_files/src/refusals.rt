//! What the files are reason to refuse.
ghost use Rattle.std.specs.Prelude.{◌≡◌};
ghost use Rattle.std.specs.List.{list_any};
ghost use Rattle.qfs_base.specs.NameTree.{add_refusal, directory_refusal, file_refusal, grows_too_deep, is_below, is_filled, is_within, kind_at, look_refusal, new_refusal, parents_refusal, rename_refusal, rmdir_refusal, source_refusal, through_refusal};
ghost use Rattle.qfs_files.specs.declared.row.FileRow.{FileRow};
ghost use Rattle.qfs_files.specs.Rows.{is_deep, kind_held, standing_of, target_refusal};

use crate::files::Files;
use crate::row::{FileRow, Holding};
use qfs_base::lists::{Bytes, NameKind};
use qfs_base::reply::TreeRefusal;
use qfs_table::Run;

/// The most names of a path.
const MOST_NAMES: usize = 32;

/// What the rules of the name tree see of what stands at a path.
pub fn kind_of(holding: &Holding) -> NameKind
    ensures { result ≡ kind_held holding.now }
{
    match holding {
        Holding::Directory => NameKind::Directory,
        Holding::Unclosed(_) => NameKind::Unclosed,
        Holding::Closed(_, _, _) => NameKind::Closed,
    }
}

/// Why a path can't lead through what stands there: a file is no directory, and of what isn't
/// there the caller says how it is `absent`.
#[tactic(auto, unfolding(qfs_base::specs::NameTree::through_refusal))]
fn through_refusal(absent: TreeRefusal, kind: Option<NameKind>) -> Option<TreeRefusal>
    ensures { result ≡ through_refusal absent kind }
{
    match kind {
        None => Some(absent),
        Some(NameKind::Directory) => None,
        Some(NameKind::Unclosed) => Some(TreeRefusal::NotDir),
        Some(NameKind::Closed) => Some(TreeRefusal::NotDir),
    }
}

/// A new entry can't be where something stands.
#[tactic(auto, unfolding(qfs_base::specs::NameTree::new_refusal))]
fn new_refusal(kind: Option<NameKind>) -> Option<TreeRefusal>
    ensures { result ≡ new_refusal kind }
{
    match kind {
        None => None,
        Some(_) => Some(TreeRefusal::Exists),
    }
}

/// Only a closed file is read or removed.
#[tactic(auto, unfolding(qfs_base::specs::NameTree::file_refusal))]
fn file_refusal(kind: Option<NameKind>) -> Option<TreeRefusal>
    ensures { result ≡ file_refusal kind }
{
    match kind {
        None => Some(TreeRefusal::Missing),
        Some(NameKind::Directory) => Some(TreeRefusal::IsDir),
        Some(NameKind::Unclosed) => Some(TreeRefusal::Unclosed),
        Some(NameKind::Closed) => None,
    }
}

/// Only what is there is renamed.
#[tactic(auto, unfolding(qfs_base::specs::NameTree::source_refusal))]
fn source_refusal(kind: Option<NameKind>) -> Option<TreeRefusal>
    ensures { result ≡ source_refusal kind }
{
    match kind {
        None => Some(TreeRefusal::Missing),
        Some(_) => None,
    }
}

/// Whether a path is the top one or lies below it.
pub fn is_within(top: &[Bytes], names: &[Bytes]) -> bool
    ensures { result ≡ is_within top.now names.now }
{
    names.starts_with(top)
}

/// Whether a path lies below the top one.
fn is_below(top: &[Bytes], names: &[Bytes]) -> bool
    ensures { result ≡ is_below top.now names.now }
{
    is_within(top, names) && top.len() < names.len()
}

/// Whether one of these rows lies below a path.
fn any_below(top: &[Bytes], rows: Run<'_, FileRow>) -> bool
    ensures { result ≡ list_any (λ (row : FileRow). is_below top.now row.names) rows.entry }
{
    for row in rows {
        if is_below(top, row.names.as_slice()) {
            return true;
        }
    }
    false
}

/// Whether a row within `from` would have more than 32 names, once it lies within `to`.
fn is_too_deep(from: &[Bytes], to: &[Bytes], row: &FileRow) -> bool
    ensures { result ≡ is_deep from.now to.now row.now }
{
    let names = row.names.as_slice();
    let below = names.len().saturating_sub(from.len());
    is_within(from, names) && to.len() + below > MOST_NAMES
}

/// Whether one of these rows would.
fn any_too_deep(from: &[Bytes], to: &[Bytes], rows: Run<'_, FileRow>) -> bool
    ensures { result ≡ list_any (is_deep from.now to.now) rows.entry }
{
    for row in rows {
        if is_too_deep(from, to, row) {
            return true;
        }
    }
    false
}

impl Files {
    /// What stands under a path, if anything does: the root is a directory.
    #[tactic(auto, using(crate::proofs::RuleLaws::kind_at_filled), unfolding(qfs_base::specs::NameTree::kind_at))]
    fn kind_at(&self, names: &[Bytes]) -> Option<NameKind>
        ensures { result ≡ kind_at (standing_of self.now) names.now }
    {
        if names.is_empty() {
            return Some(NameKind::Directory);
        }
        match self.row_at(names) {
            Some(row) => Some(kind_of(&row.holding)),
            None => None,
        }
    }

    /// The parents of a path are tried from the top, and the first that isn't a directory decides.
    fn parents_refusal(&self, absent: TreeRefusal, names: &[Bytes]) -> Option<TreeRefusal>
        ensures { result ≡ parents_refusal absent (standing_of self.now) names.now }
    {
        for depth in 1..names.len() {
            if let Some(refusal) = through_refusal(absent, self.kind_at(&names[..depth])) {
                return Some(refusal);
            }
        }
        None
    }

    /// Why nothing is made at a path: a parent isn't there (NoParent) or is a file (NotDir), or
    /// something stands at the path (Exists).
    #[tactic(auto, unfolding(qfs_base::specs::NameTree::add_refusal))]
    pub fn add_refusal(&self, names: &[Bytes]) -> Option<TreeRefusal>
        ensures { result ≡ add_refusal (standing_of self.now) names.now }
    {
        match self.parents_refusal(TreeRefusal::NoParent, names) {
            Some(refusal) => Some(refusal),
            None => new_refusal(self.kind_at(names)),
        }
    }

    /// Why a path is no directory that is there: it or a parent isn't there (Missing) or is a file
    /// (NotDir).
    #[tactic(auto, unfolding(qfs_base::specs::NameTree::directory_refusal))]
    pub fn directory_refusal(&self, names: &[Bytes]) -> Option<TreeRefusal>
        ensures { result ≡ directory_refusal (standing_of self.now) names.now }
    {
        match self.parents_refusal(TreeRefusal::Missing, names) {
            Some(refusal) => Some(refusal),
            None => through_refusal(TreeRefusal::Missing, self.kind_at(names)),
        }
    }

    /// Whether something stands below a directory. The root counts as never empty.
    #[tactic(auto, using(crate::proofs::RuleLaws::filled_below), unfolding(qfs_base::specs::NameTree::is_filled))]
    fn is_filled(&self, names: &[Bytes]) -> bool
        ensures { result ≡ is_filled (standing_of self.now) names.now }
    {
        names.is_empty() || any_below(names, self.rows())
    }

    /// Why a directory isn't taken away: it is no directory that is there, or something stands
    /// below it (NotEmpty).
    #[tactic(auto, unfolding(qfs_base::specs::NameTree::rmdir_refusal))]
    pub fn rmdir_refusal(&self, names: &[Bytes]) -> Option<TreeRefusal>
        ensures { result ≡ rmdir_refusal (standing_of self.now) names.now }
    {
        match self.directory_refusal(names) {
            Some(refusal) => Some(refusal),
            None => self.is_filled(names).then_some(TreeRefusal::NotEmpty),
        }
    }

    /// Why a path is no closed file: it or a parent isn't there (Missing), a parent is a file
    /// (NotDir), or it is a directory (IsDir) or an unclosed file (Unclosed).
    #[tactic(auto, unfolding(qfs_base::specs::NameTree::look_refusal))]
    pub fn look_refusal(&self, names: &[Bytes]) -> Option<TreeRefusal>
        ensures { result ≡ look_refusal (standing_of self.now) names.now }
    {
        match self.parents_refusal(TreeRefusal::Missing, names) {
            Some(refusal) => Some(refusal),
            None => file_refusal(self.kind_at(names)),
        }
    }

    /// Whether an entry within `from` would have more than 32 names, once it is within `to`.
    #[tactic(auto, using(crate::proofs::RuleLaws::too_deep))]
    fn grows_too_deep(&self, from: &[Bytes], to: &[Bytes]) -> bool
        ensures { result ≡ grows_too_deep (standing_of self.now) from.now to.now }
    {
        any_too_deep(from, to, self.rows())
    }

    /// Why what is below a path doesn't go to another: the new place isn't free, or it would lie
    /// too deep (TooDeep).
    fn target_refusal(&self, from: &[Bytes], to: &[Bytes]) -> Option<TreeRefusal>
        ensures { result ≡ target_refusal (standing_of self.now) from.now to.now }
    {
        match self.add_refusal(to) {
            Some(refusal) => Some(refusal),
            None => self
                .grows_too_deep(from, to)
                .then_some(TreeRefusal::TooDeep),
        }
    }

    /// Why an entry isn't renamed: it or a parent isn't there (Missing), a parent is a file
    /// (NotDir), the target is the entry or lies below it (IntoSelf), the target can't be made
    /// (NoParent, NotDir, Exists), or something would have more than 32 names (TooDeep).
    #[tactic(auto, unfolding(qfs_base::specs::NameTree::rename_refusal))]
    pub fn rename_refusal(&self, from: &[Bytes], to: &[Bytes]) -> Option<TreeRefusal>
        ensures { result ≡ rename_refusal (standing_of self.now) from.now to.now }
    {
        if let Some(refusal) = self.parents_refusal(TreeRefusal::Missing, from) {
            return Some(refusal);
        }
        if let Some(refusal) = source_refusal(self.kind_at(from)) {
            return Some(refusal);
        }
        if is_within(from, to) {
            return Some(TreeRefusal::IntoSelf);
        }
        self.target_refusal(from, to)
    }
}
