//! What stands in the tree, and the refusals that it is reason for.
ghost use Rattle.std.specs.Prelude.{◌≡◌};
ghost use Rattle.qfs_base.specs.NameTree.{through_refusal, new_refusal, file_refusal, source_refusal};
ghost use Rattle.qfs_model_meta.specs.TreeRows.{kind_of, is_unclosed};
ghost use Rattle.qfs_names.specs.Names.{is_open, row_kind};

use crate::row::NameRow;
use qfs_base::lists::NameKind;
use qfs_base::numbers::FileId;
use qfs_base::reply::TreeRefusal;

/// What stands at a row: file 0 is a directory.
#[tactic(auto, unfolding(qfs_model_meta::specs::TreeRows::kind_of))]
fn kind_of(file: FileId, closed: bool) -> NameKind
    ensures { result ≡ kind_of file closed }
{
    match (file, closed) {
        (0, _) => NameKind::Directory,
        (_, true) => NameKind::Closed,
        (_, false) => NameKind::Unclosed,
    }
}

/// What stands at a row.
pub fn kind_at_row(row: &NameRow) -> NameKind
    ensures { result ≡ row_kind row.now }
{
    kind_of(row.file, row.closed)
}

/// Whether a row is that of a file that isn't closed.
#[tactic(auto, unfolding(qfs_model_meta::specs::TreeRows::is_unclosed))]
pub fn is_open(row: &NameRow) -> bool
    ensures { result ≡ is_open row.now }
{
    match kind_at_row(row) {
        NameKind::Unclosed => true,
        NameKind::Closed | NameKind::Directory => false,
    }
}

/// Why a path can't lead through what stands there: a file is no directory, and of what isn't
/// there the caller says how it is `absent`.
#[tactic(auto, unfolding(qfs_base::specs::NameTree::through_refusal))]
pub fn through_refusal(absent: TreeRefusal, kind: Option<NameKind>) -> Option<TreeRefusal>
    ensures { result ≡ through_refusal absent kind }
{
    match kind {
        None => Some(absent),
        Some(NameKind::Directory) => None,
        Some(NameKind::Unclosed) => Some(TreeRefusal::NotDir),
        Some(NameKind::Closed) => Some(TreeRefusal::NotDir),
    }
}

/// A new entry can't be where something stands.
#[tactic(auto, unfolding(qfs_base::specs::NameTree::new_refusal))]
pub fn new_refusal(kind: Option<NameKind>) -> Option<TreeRefusal>
    ensures { result ≡ new_refusal kind }
{
    match kind {
        None => None,
        Some(_) => Some(TreeRefusal::Exists),
    }
}

/// Only a closed file is opened, removed, recovered or moved.
#[tactic(auto, unfolding(qfs_base::specs::NameTree::file_refusal))]
pub fn file_refusal(kind: Option<NameKind>) -> Option<TreeRefusal>
    ensures { result ≡ file_refusal kind }
{
    match kind {
        None => Some(TreeRefusal::Missing),
        Some(NameKind::Directory) => Some(TreeRefusal::IsDir),
        Some(NameKind::Unclosed) => Some(TreeRefusal::Unclosed),
        Some(NameKind::Closed) => None,
    }
}

/// Only what is there is renamed.
#[tactic(auto, unfolding(qfs_base::specs::NameTree::source_refusal))]
pub fn source_refusal(kind: Option<NameKind>) -> Option<TreeRefusal>
    ensures { result ≡ source_refusal kind }
{
    match kind {
        None => Some(TreeRefusal::Missing),
        Some(_) => None,
    }
}
