// All of some pieces of a file name extents, or name them no more.
ghost use Rattle.std.specs.Prelude.{◌++◌, ◌*◌, ℕ, ⊤, List, MatchOption, IsErrOf, IsTrue, OnOk, length};
ghost use Rattle.std.specs.List.{filter_map};
ghost use Rattle.std.specs.Option.{option_to_list};
ghost use Rattle.qg_device.specs.History.{History};
ghost use Rattle.qg_num.specs.declared.piece.Piece.{Piece as PieceValue};
ghost use Rattle.qg_num.specs.declared.rule.Rule.TheVariants.{Refs};
ghost use Rattle.qg_node.specs.declared.item.Item.{Item as ItemValue};
ghost use Rattle.qg_blocks.specs.Stopping.{NamesRule};
ghost use Rattle.qg_space.specs.Holding.{is_free_run};
ghost use Rattle.qg_shared_trees.specs.Heavier.{BookGetsHeavier, name_bytes, name_new_bytes};
ghost use Rattle.qg_file_edits.specs.Named.{names_of};
ghost use Rattle.qg_shared_trees.specs.Standing.{IsSubvolume, Stands, name_told, names_elsewhere};
ghost use Rattle.qg_file_edits.specs.Naming.{AreCovered, AreFewNames, AreNamed, AreOfNamed, KeepsNodes};

use qg_num::{BlockFault, Ino, Piece};
use qg_shared_trees::fs_tree::FsTree;

/// Pieces of a file name extents that others name already, in this tree or in another.
pub(crate) fn name_each(fs: &mut FsTree, ino: Ino, pieces: &[Piece]) -> Result<(), BlockFault>
    ensures named { (history : History) (bytes : ℕ) (items : List ItemValue) (names : List (ℕ × PieceValue))
        → IsSubvolume fs.old history bytes → Stands fs.old history items names
        → AreOfNamed (names ++ names_elsewhere fs.old history) pieces.now
        → AreFewNames fs.old.tree.owner (names_of ino pieces.now ++ names)
        → AreNamed fs.old fs.new history items (names_of ino pieces.now ++ names) result }
    ensures nodes { KeepsNodes fs.old fs.new }
    ensures heavier { OnOk result (BookGetsHeavier fs.old.refs fs.new.refs (length pieces.now * name_bytes)) }
    ensures fault { IsErrOf result BlockFault.Disk → ⊥ }
    ensures refs { NamesRule result Refs }
{
    for piece in pieces {
        fs.name(ino, piece)?;
    }
    Ok(())
}

/// Pieces of a file name their extents no more. The runs of extents that none names any more are given back.
pub(crate) fn unname_each(fs: &mut FsTree, ino: Ino, pieces: &[Piece]) -> Result<(), BlockFault>
    ensures unnamed { (history : History) (bytes : ℕ) (items : List ItemValue)
        (names : List (ℕ × PieceValue))
        → IsSubvolume fs.old history bytes → Stands fs.old history items (names_of ino pieces.now ++ names)
        → AreCovered fs.old.tree.owner (filter_map name_told items) names
        → AreNamed fs.old fs.new history items names result }
    ensures nodes { KeepsNodes fs.old fs.new }
    ensures heavier { OnOk result (BookGetsHeavier fs.old.refs fs.new.refs 0) }
    ensures fault { IsErrOf result BlockFault.Disk → ⊥ }
    ensures refs { NamesRule result Refs }
{
    for piece in pieces {
        fs.unname(ino, piece)?;
    }
    Ok(())
}

/// A piece, if there is one, names a new extent, whose run is free.
pub(crate) fn name_new(fs: &mut FsTree, ino: Ino, new: Option<Piece>) -> Result<(), BlockFault>
    requires { MatchOption new ⊤ (λ piece. IsTrue (is_free_run fs.old.land.space piece.extent piece.extent_bytes)) }
    ensures named { (history : History) (bytes : ℕ) (items : List ItemValue) (names : List (ℕ × PieceValue))
        → IsSubvolume fs.old history bytes → Stands fs.old history items names
        → AreNamed fs.old fs.new history items (names_of ino (option_to_list new) ++ names) result }
    ensures nodes { KeepsNodes fs.old fs.new }
    ensures heavier { OnOk result (BookGetsHeavier fs.old.refs fs.new.refs
        (length (option_to_list new) * name_new_bytes)) }
    ensures fault { IsErrOf result BlockFault.Disk → ⊥ }
    ensures refs { NamesRule result Refs }
{
    match new {
        Some(piece) => fs.name_new(ino, &piece),
        None => Ok(()),
    }
}
