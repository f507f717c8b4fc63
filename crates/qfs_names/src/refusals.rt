//! Why a call on the tree is refused: the first reason in its order.
ghost use Rattle.std.specs.Prelude.{◌≡◌};
ghost use Rattle.std.specs.List.{list_any};
ghost use Rattle.qfs_base.specs.NameTree.{parents_refusal, add_refusal, directory_refusal, is_filled, is_within, rmdir_refusal, look_refusal, grows_too_deep, rename_refusal};
ghost use Rattle.qfs_names.specs.Names.{is_deep, standing_of, target_refusal};

use crate::kinds::{file_refusal, new_refusal, source_refusal, through_refusal};
use crate::row::NameRow;
use crate::tree::Tree;
use qfs_base::lists::Bytes;
use qfs_base::path::Path;
use qfs_base::reply::TreeRefusal;
use qfs_table::Run;

/// The most names of a path.
const MOST_NAMES: usize = 32;

/// Whether a path is the top one or lies below it.
pub fn is_within(top: &[Bytes], names: &[Bytes]) -> bool
    ensures { result ≡ is_within top.now names.now }
{
    names.starts_with(top)
}

/// Whether a row stands at a path or below it.
pub fn is_row_within(top: &[Bytes], row: &NameRow) -> bool
    ensures { result ≡ is_within top.now row.now.path }
{
    let path = &row.path;
    is_within(top, path.names.as_slice())
}

/// Whether an entry would have more than 32 names, once it lies within `to` as it does within
/// `from`.
fn is_too_deep(from: &[Bytes], to: &[Bytes], row: &NameRow) -> bool
    ensures { result ≡ is_deep from.now to.now row.now }
{
    let path = &row.path;
    let names = path.names.as_slice();
    to.len() + names.len().saturating_sub(from.len()) > MOST_NAMES
}

/// Whether one of these rows would.
fn any_too_deep(from: &[Bytes], to: &[Bytes], rows: Run<'_, NameRow>) -> bool
    ensures { result ≡ list_any (is_deep from.now to.now) rows.entry }
{
    for row in rows {
        if is_too_deep(from, to, row) {
            return true;
        }
    }
    false
}

impl Tree {
    /// The parents of a path are tried from the top, and the first that isn't a directory decides.
    fn parents_refusal(&self, absent: TreeRefusal, names: &[Bytes]) -> Option<TreeRefusal>
        ensures { result ≡ parents_refusal absent (standing_of self.now.rows) names.now }
    {
        for depth in 1..names.len() {
            if let Some(refusal) = through_refusal(absent, self.kind_at(&names[..depth])) {
                return Some(refusal);
            }
        }
        None
    }

    /// Why no directory or file is made at a path: a parent isn't there (NoParent) or is a file
    /// (NotDir), or something stands at the path (Exists).
    #[tactic(auto, unfolding(qfs_base::specs::NameTree::add_refusal))]
    pub fn add_refusal(&self, path: &Path) -> Option<TreeRefusal>
        ensures { result ≡ add_refusal (standing_of self.now.rows) path.now }
    {
        let names = path.names.as_slice();
        match self.parents_refusal(TreeRefusal::NoParent, names) {
            Some(refusal) => Some(refusal),
            None => new_refusal(self.kind_at(names)),
        }
    }

    /// Why a path is no directory that is there: it or a parent isn't there (Missing) or is a file
    /// (NotDir).
    #[tactic(auto, unfolding(qfs_base::specs::NameTree::directory_refusal))]
    pub fn directory_refusal(&self, path: &Path) -> Option<TreeRefusal>
        ensures { result ≡ directory_refusal (standing_of self.now.rows) path.now }
    {
        let names = path.names.as_slice();
        match self.parents_refusal(TreeRefusal::Missing, names) {
            Some(refusal) => Some(refusal),
            None => through_refusal(TreeRefusal::Missing, self.kind_at(names)),
        }
    }

    /// Whether something stands below a directory: the first row behind it shows that. The root
    /// counts as never empty.
    #[tactic(auto, using(crate::proofs::ChildLaws::filled_below), unfolding(qfs_base::specs::NameTree::is_filled))]
    fn is_filled(&self, names: &[Bytes]) -> bool
        ensures { result ≡ is_filled (standing_of self.now.rows) names.now }
    {
        if names.is_empty() {
            return true;
        }
        match self.row_behind(names) {
            Some(row) => is_row_within(names, row),
            None => false,
        }
    }

    /// Why a directory isn't taken away: it is no directory that is there, or something stands
    /// below it (NotEmpty).
    #[tactic(auto, unfolding(qfs_base::specs::NameTree::rmdir_refusal))]
    pub fn rmdir_refusal(&self, path: &Path) -> Option<TreeRefusal>
        ensures { result ≡ rmdir_refusal (standing_of self.now.rows) path.now }
    {
        match self.directory_refusal(path) {
            Some(refusal) => Some(refusal),
            None => self
                .is_filled(path.names.as_slice())
                .then_some(TreeRefusal::NotEmpty),
        }
    }

    /// Why a path is no closed file: it or a parent isn't there (Missing), a parent is a file
    /// (NotDir), or it is a directory (IsDir) or an unclosed file (Unclosed).
    #[tactic(auto, unfolding(qfs_base::specs::NameTree::look_refusal))]
    pub fn look_refusal(&self, path: &Path) -> Option<TreeRefusal>
        ensures { result ≡ look_refusal (standing_of self.now.rows) path.now }
    {
        let names = path.names.as_slice();
        match self.parents_refusal(TreeRefusal::Missing, names) {
            Some(refusal) => Some(refusal),
            None => file_refusal(self.kind_at(names)),
        }
    }

    /// Whether an entry within `from` would have more than 32 names, once it is within `to`.
    fn grows_too_deep(&self, from: &[Bytes], to: &[Bytes]) -> bool
        ensures { result ≡ grows_too_deep (standing_of self.now.rows) from.now to.now }
    {
        any_too_deep(from, to, self.rows_within(from))
    }

    /// Why what is below a path doesn't go to another: it would lie too deep (TooDeep), or the new
    /// place isn't free.
    fn target_refusal(&self, from: &Path, to: &Path) -> Option<TreeRefusal>
        ensures { result ≡ target_refusal (standing_of self.now.rows) from.now to.now }
    {
        match self.add_refusal(to) {
            Some(refusal) => Some(refusal),
            None => self
                .grows_too_deep(from.names.as_slice(), to.names.as_slice())
                .then_some(TreeRefusal::TooDeep),
        }
    }

    /// Why an entry isn't renamed: it or a parent isn't there (Missing), a parent is a file
    /// (NotDir), the target is the entry or lies below it (IntoSelf), the target can't be made
    /// (NoParent, NotDir, Exists), or something would have more than 32 names (TooDeep).
    #[tactic(auto, unfolding(qfs_base::specs::NameTree::rename_refusal))]
    pub fn rename_refusal(&self, from: &Path, to: &Path) -> Option<TreeRefusal>
        ensures { result ≡ rename_refusal (standing_of self.now.rows) from.now to.now }
    {
        let names = from.names.as_slice();
        if let Some(refusal) = self.parents_refusal(TreeRefusal::Missing, names) {
            return Some(refusal);
        }
        if let Some(refusal) = source_refusal(self.kind_at(names)) {
            return Some(refusal);
        }
        if is_within(names, to.names.as_slice()) {
            return Some(TreeRefusal::IntoSelf);
        }
        self.target_refusal(from, to)
    }
}
