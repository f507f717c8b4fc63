//! The name tree: what stands at a path, and why a file isn't made or opened there.
ghost use Rattle.std.specs.Prelude.{◌≡◌, find};
ghost use Rattle.std.specs.Option.{option_copied};
ghost use Rattle.qfs_base.specs.NameTree.{stands_at, kind_at, through_refusal, new_refusal, file_refusal, parents_refusal, add_refusal, look_refusal};
ghost use Rattle.qfs_model_meta.specs.TreeRows.{kind_of, row_path, standing, is_unclosed_row, is_unclosed_of, unclosed_file, row_at};

use qfs_base::image::TreeRow;
use qfs_base::listing::Listing;
use qfs_base::lists::NameKind;
use qfs_base::numbers::{ActorId, FileId};
use qfs_base::path::Path;
use qfs_base::reply::TreeRefusal;

/// What stands at a row: file 0 is a directory.
#[tactic(auto, unfolding(qfs_model_meta::specs::TreeRows::kind_of))]
fn kind_of(file: FileId, closed: bool) -> NameKind
    ensures { result ≡ kind_of file closed }
{
    match (file, closed) {
        (0, _) => NameKind::Directory,
        (_, true) => NameKind::Closed,
        (_, false) => NameKind::Unclosed,
    }
}

/// Whether these are the names of a row's path.
fn is_at(row: &TreeRow, names: &[Listing<u8>]) -> bool
    ensures { result ≡ stands_at row_path names.now row.now }
{
    let path = &row.path;
    path.names.as_slice() == names
}

/// What stands at a row of the tree.
fn row_named<'a>(tree: &'a [TreeRow], names: &[Listing<u8>]) -> Option<&'a TreeRow>
    ensures { option_copied result ≡ find (stands_at row_path names.now) tree.now }
{
    tree.iter().find(|row| is_at(row, names))
}

/// What stands under a path, if anything does: the root is a directory.
#[tactic(auto, using(crate::proofs::TreeLaws::kind_at_filled), unfolding(qfs_base::specs::NameTree::kind_at))]
pub fn kind_at(tree: &[TreeRow], names: &[Listing<u8>]) -> Option<NameKind>
    ensures { result ≡ kind_at (standing tree.now) names.now }
{
    if names.is_empty() {
        return Some(NameKind::Directory);
    }
    row_named(tree, names).map(|row| kind_of(row.file, row.closed))
}

/// Why a path can't lead through what stands there: a file is no directory, and of what isn't
/// there the caller says how it is `absent`.
#[tactic(auto, unfolding(qfs_base::specs::NameTree::through_refusal))]
fn through_refusal(absent: TreeRefusal, kind: Option<NameKind>) -> Option<TreeRefusal>
    ensures { result ≡ through_refusal absent kind }
{
    match kind {
        None => Some(absent),
        Some(NameKind::Directory) => None,
        Some(NameKind::Unclosed) => Some(TreeRefusal::NotDir),
        Some(NameKind::Closed) => Some(TreeRefusal::NotDir),
    }
}

/// A new entry can't be where something stands.
#[tactic(auto, unfolding(qfs_base::specs::NameTree::new_refusal))]
fn new_refusal(kind: Option<NameKind>) -> Option<TreeRefusal>
    ensures { result ≡ new_refusal kind }
{
    match kind {
        None => None,
        Some(_) => Some(TreeRefusal::Exists),
    }
}

/// Only a closed file is opened.
#[tactic(auto, unfolding(qfs_base::specs::NameTree::file_refusal))]
fn file_refusal(kind: Option<NameKind>) -> Option<TreeRefusal>
    ensures { result ≡ file_refusal kind }
{
    match kind {
        None => Some(TreeRefusal::Missing),
        Some(NameKind::Directory) => Some(TreeRefusal::IsDir),
        Some(NameKind::Unclosed) => Some(TreeRefusal::Unclosed),
        Some(NameKind::Closed) => None,
    }
}

/// The parents of a path are tried from the top, and the first that isn't a directory decides.
fn parents_refusal(
    absent: TreeRefusal,
    tree: &[TreeRow],
    names: &[Listing<u8>],
) -> Option<TreeRefusal>
    ensures { result ≡ parents_refusal absent (standing tree.now) names.now }
{
    for depth in 1..names.len() {
        if let Some(refusal) = through_refusal(absent, kind_at(tree, &names[..depth])) {
            return Some(refusal);
        }
    }
    None
}

/// Why no file is made at a path.
#[tactic(auto, unfolding(qfs_base::specs::NameTree::add_refusal))]
pub fn add_refusal(tree: &[TreeRow], path: &Path) -> Option<TreeRefusal>
    ensures { result ≡ add_refusal (standing tree.now) path.now }
{
    let names = path.names.as_slice();
    match parents_refusal(TreeRefusal::NoParent, tree, names) {
        Some(refusal) => Some(refusal),
        None => new_refusal(kind_at(tree, names)),
    }
}

/// Why a path is no closed file.
#[tactic(auto, unfolding(qfs_base::specs::NameTree::look_refusal))]
pub fn look_refusal(tree: &[TreeRow], path: &Path) -> Option<TreeRefusal>
    ensures { result ≡ look_refusal (standing tree.now) path.now }
{
    let names = path.names.as_slice();
    match parents_refusal(TreeRefusal::Missing, tree, names) {
        Some(refusal) => Some(refusal),
        None => file_refusal(kind_at(tree, names)),
    }
}

/// Whether a row is that of a file that isn't closed.
#[tactic(auto, unfolding(qfs_model_meta::specs::TreeRows::is_unclosed_row, qfs_model_meta::specs::TreeRows::is_unclosed, qfs_model_meta::specs::TreeRows::kind_of))]
fn is_unclosed_row(row: &TreeRow) -> bool
    ensures { result ≡ is_unclosed_row row.now }
{
    match kind_of(row.file, row.closed) {
        NameKind::Unclosed => true,
        NameKind::Closed | NameKind::Directory => false,
    }
}

/// Whether a row is an actor's unclosed file.
#[tactic(auto, unfolding(qfs_model_meta::specs::TreeRows::is_unclosed_of))]
fn is_unclosed_of(row: &TreeRow, actor: ActorId) -> bool
    ensures { result ≡ is_unclosed_of actor row.now }
{
    is_unclosed_row(row) && row.actor == actor
}

/// A file that an actor made and hasn't closed.
#[tactic(auto, unfolding(qfs_model_meta::specs::TreeRows::unclosed_file, qfs_model_meta::specs::TreeRows::has_file))]
pub fn unclosed_file(tree: &[TreeRow], actor: ActorId, file: FileId) -> Option<&TreeRow>
    ensures { option_copied result ≡ unclosed_file actor file tree.now }
{
    tree.iter()
        .find(|row| is_unclosed_of(row, actor) && row.file == file)
}

/// The number and the length of the file at a path: both are 0 where nothing stands there.
#[tactic(auto, unfolding(qfs_model_meta::specs::TreeRows::row_at, qfs_model_meta::specs::TreeRows::directory_row))]
pub fn file_at(tree: &[TreeRow], path: &Path) -> (FileId, u32)
    ensures file { result.0 ≡ (row_at tree.now path.now).file }
    ensures len { result.1 ≡ (row_at tree.now path.now).len }
{
    match row_named(tree, path.names.as_slice()) {
        Some(row) => (row.file, row.len),
        None => (0, 0),
    }
}
