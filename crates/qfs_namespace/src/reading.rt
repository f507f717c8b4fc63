//! What is read of a namespace: why a change would be refused, and what is known of a file.
ghost use Rattle.std.specs.Prelude.{◌≡◌, length, None, IfOk, is_some};
ghost use Rattle.std.specs.Option.{option_map};
ghost use Rattle.qfs_base.specs.NameTree.{add_refusal, directory_refusal, look_refusal, names_below, rename_refusal, rmdir_refusal};
ghost use Rattle.qfs_model_meta.specs.TreeRows.{closed_file, file_stands, row_at, standing, unclosed_file};
ghost use Rattle.qfs_namespace.specs.Joined.{known_in, known_of};
ghost use Rattle.qfs_namespace.specs.Namespaces.{IsMoved};

use crate::file::{ByFile, KnownFile};
use crate::namespace::Namespace;
use qfs_base::history::Entry;
use qfs_base::lists::Names;
use qfs_base::numbers::{ActorId, FileId};
use qfs_base::path::Path;
use qfs_base::reply::TreeRefusal;
use qfs_names::Moved;
use qfs_table::Table;
use std::alloc::AllocError;

/// Nothing is known of a directory.
const NO_FILE: KnownFile = KnownFile {
    file: 0,
    actor: 0,
    command: 0,
    len: 0,
};

/// What is known of a file, and nothing where it isn't known.
fn known(files: &Table<KnownFile>, file: FileId) -> KnownFile
    ensures { result ≡ known_of files.now.rows file }
{
    match files.get(&ByFile { file }) {
        Some(row) => *row,
        None => NO_FILE,
    }
}

impl Namespace {
    /// Why no directory or file is made at a path: a parent isn't there (NoParent) or is a file
    /// (NotDir), or something stands at the path (Exists).
    pub fn add_refusal(&self, path: &Path) -> Option<TreeRefusal>
        ensures { result ≡ add_refusal (standing self.now.tree) path.now }
    {
        self.tree.add_refusal(path)
    }

    /// Why a path is no directory that is there: it or a parent isn't there (Missing) or is a file
    /// (NotDir).
    pub fn directory_refusal(&self, path: &Path) -> Option<TreeRefusal>
        ensures { result ≡ directory_refusal (standing self.now.tree) path.now }
    {
        self.tree.directory_refusal(path)
    }

    /// Why a directory isn't taken away: it is no directory that is there, or something stands
    /// below it (NotEmpty).
    pub fn rmdir_refusal(&self, path: &Path) -> Option<TreeRefusal>
        ensures { result ≡ rmdir_refusal (standing self.now.tree) path.now }
    {
        self.tree.rmdir_refusal(path)
    }

    /// Why a path is no closed file: it or a parent isn't there (Missing), a parent is a file
    /// (NotDir), or it is a directory (IsDir) or an unclosed file (Unclosed).
    pub fn look_refusal(&self, path: &Path) -> Option<TreeRefusal>
        ensures { result ≡ look_refusal (standing self.now.tree) path.now }
    {
        self.tree.look_refusal(path)
    }

    /// Why an entry isn't renamed, in the order of the reasons: Missing, NotDir, IntoSelf,
    /// NoParent, NotDir of the target's parents, Exists, TooDeep.
    pub fn rename_refusal(&self, from: &Path, to: &Path) -> Option<TreeRefusal>
        ensures { result ≡ rename_refusal (standing self.now.tree) from.now to.now }
    {
        self.tree.rename_refusal(from, to)
    }

    /// The names right below a directory, in the order of their bytes.
    pub fn names_below(&self, path: &Path) -> Result<Names, AllocError>
        ensures { IfOk result (λ names. names ≡ names_below (standing self.now.tree) path.now) }
    {
        self.tree.names_below(path)
    }

    /// What lies within a path, as a rename puts it.
    pub fn moved(&self, from: &Path, to: &Path) -> Result<Moved, AllocError>
        requires { rename_refusal (standing self.now.tree) from.now to.now ≡ None }
        ensures { IfOk result (IsMoved from.now to.now self.now.tree) }
    {
        self.tree.moved(from, to)
    }

    /// The file at a path with what is known of it; all is 0 where a directory or nothing stands
    /// there.
    pub fn file_at(&self, path: &Path) -> KnownFile
        ensures { result ≡ known_in (row_at self.now.tree path.now) }
    {
        known(&self.files, self.tree.file_at(path))
    }

    /// A file that an actor made and hasn't closed, or None.
    pub fn unclosed_file(&self, actor: ActorId, file: FileId) -> Option<KnownFile>
        ensures { result ≡ option_map known_in (unclosed_file actor file self.now.tree) }
    {
        if self.tree.unclosed_path(file).is_none() {
            return None;
        }
        let row = known(&self.files, file);
        if row.actor == actor { Some(row) } else { None }
    }

    /// A closed file, or None.
    pub fn closed_file(&self, file: FileId) -> Option<KnownFile>
        ensures { result ≡ option_map known_in (closed_file file self.now.tree) }
    {
        self.tree.form_tree();
        if self.tree.unclosed_path(file).is_some() {
            return None;
        }
        match self.files.get(&ByFile { file }) {
            Some(row) => Some(*row),
            None => None,
        }
    }

    /// Whether a file is in the tree, closed or not.
    pub fn file_stands(&self, file: FileId) -> bool
        ensures { result ≡ file_stands file self.now.tree }
    {
        self.files.get(&ByFile { file }).is_some()
    }

    /// How many entries the file history has: the place of what is read now.
    pub fn place(&self) -> usize
        ensures { result ≡ length self.now.history }
    {
        self.history.len()
    }

    /// The file history.
    pub fn history(&self) -> &[Entry]
        ensures { result.now ≡ self.now.history }
    {
        self.history.as_slice()
    }

    /// The number that the next file gets.
    pub fn next_file(&self) -> FileId
        ensures { result ≡ self.now.next_file }
    {
        self.next_file
    }
}
