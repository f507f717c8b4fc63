//! Laws of the metaserver's name tree and file history: the lemma files of specs/ say what each
//! change leaves of them. Each function here does nothing, and its contract is a law.
#![tactic(auto)]

ghost use Rattle.std.specs.Prelude.{◌≡◌, ℕ, List, None};
ghost use Rattle.qfs_base.specs.NameTree.{PathNames, look_refusal, rmdir_refusal, rename_refusal};
ghost use Rattle.qfs_base.specs.Path.{IsPath};
ghost use Rattle.qfs_base.specs.declared.image.MetaImage.{MetaImage};
ghost use Rattle.qfs_base.specs.declared.image.TreeRow.{TreeRow};
ghost use Rattle.qfs_base.specs.declared.change.Change.TheVariants.{MovePath, TakeDirectory};
ghost use Rattle.qfs_model_meta.specs.Apply.{apply};
ghost use Rattle.qfs_model_meta.specs.Grammar.{IsTree};
ghost use Rattle.qfs_model_meta.specs.Sound.{TreeIsHistory};
ghost use Rattle.qfs_model_meta.specs.TreeRows.{standing, take_path, move_path};

/// What the rules of the tree let be taken or moved leaves a tree.
pub fn changes_leave_a_tree()
    ensures removed { (next : ℕ) (path : PathNames) (tree : List TreeRow)
        → look_refusal (standing tree) path ≡ None → IsTree next tree
        → IsTree next (take_path path tree) }
    ensures emptied { (next : ℕ) (path : PathNames) (tree : List TreeRow)
        → rmdir_refusal (standing tree) path ≡ None → IsTree next tree
        → IsTree next (take_path path tree) }
    ensures moved { (from to : PathNames) (tree : List TreeRow) (next : ℕ) → IsPath to
        → rename_refusal (standing tree) from to ≡ None → IsTree next tree
        → IsTree next (move_path from to tree) }
{}

/// Behind a move or the removal of a directory the tree is still that of the file history.
pub fn changes_are_history()
    ensures moved { (m : MetaImage) (from to : PathNames) → IsPath to
        → rename_refusal (standing m.tree) from to ≡ None → TreeIsHistory m
        → TreeIsHistory (apply m (MovePath from to)) }
    ensures emptied { (m : MetaImage) (path : PathNames)
        → rmdir_refusal (standing m.tree) path ≡ None
        → TreeIsHistory m → TreeIsHistory (apply m (TakeDirectory path)) }
{}
