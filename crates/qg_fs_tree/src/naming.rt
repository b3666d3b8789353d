// Pieces of files name extents, and name them no more.
ghost use Rattle.std.specs.Prelude.{◌≡◌, ◌≢◌, ◌∷◌, ◌<◌, ◌≤◌, ◌*◌, ◌/◌, ℕ, ⊤, List, Err, MatchResult, OnOk};
ghost use Rattle.std.specs.Prelude.{IsTrue, true};
ghost use Rattle.std.specs.List.{Contains, filter_map};
ghost use Rattle.qg_device.specs.History.{History};
ghost use Rattle.qg_num.specs.declared.piece.Piece.{Piece as PieceValue};
ghost use Rattle.qg_num.specs.declared.fault.BlockFault.TheVariants.{Image};
ghost use Rattle.qg_num.specs.declared.rule.Rule.TheVariants.{Refs};
ghost use Rattle.qg_node.specs.declared.item.Item.{Item as ItemValue};
ghost use Rattle.qg_super.specs.Places.{sector};
ghost use Rattle.qg_image.specs.Reach.{extent_of};
ghost use Rattle.qg_blocks.specs.NodesFound.{BreaksNone};
ghost use Rattle.qg_space.specs.Holding.{free_slots, has_run, is_free_run};
ghost use Rattle.qg_refs.specs.Book.{full_in};
ghost use Rattle.qg_extents.specs.Table.{book_of};
ghost use Rattle.qg_tree_backrefs.specs.Heavier.{BookGetsHeavier, name_bytes, name_new_bytes};
ghost use Rattle.qg_fs_tree.specs.Standing.{IsMisfitAt, IsSubvolume, KeepsTree, Stands, extents_named, name_of};
ghost use Rattle.qg_fs_tree.specs.Standing.{name_told, names_times};

use crate::FsTree;
use qg_num::{Address, BlockFault, Ino, Piece, Rule};
use qg_refs::Reference;
use qg_super::SECTOR;

/// A reference, or a run, is not what it should be at an address.
fn misfit_at(address: Address) -> BlockFault
    ensures { result ≡ Image Refs address }
{
    BlockFault::Image {
        rule: Rule::Refs,
        address,
    }
}

impl FsTree {
    /// The keyed reference by a piece to its extent.
    fn reference_of(&self, ino: Ino, piece: &Piece) -> Reference
        ensures { result ≡ (name_of self.now.tree.owner (ino, piece.now)).reference }
    {
        Reference::KeyedData {
            root: self.tree.owner(),
            ino,
            offset: piece.position.wrapping_sub(piece.offset),
        }
    }

    /// Whether the run of a piece's extent is taken, whole.
    fn is_taken(&self, piece: &Piece) -> bool
        ensures { result ≡ has_run self.now.land.space piece.now.extent (piece.now.extent_bytes / sector * sector) }
    {
        self.land
            .space
            .has_run(piece.extent, piece.extent_bytes / SECTOR)
    }

    /// A piece names its extent, which others name already, in this tree or in another: its run is taken.
    ///
    /// `Image` with `refs` comes where the extent has no reference or its run is not taken, and where this reference is
    /// there as often as one may be.
    pub fn name(&mut self, ino: Ino, piece: &Piece) -> Result<(), BlockFault>
        ensures named { (history : History) (bytes : ℕ) (items : List ItemValue)
            (names : List (ℕ × PieceValue))
            → IsSubvolume self.old history bytes → Stands self.old history items names
            → Contains (extents_named self.old history names) (extent_of piece.now)
            → names_times self.old.tree.owner names piece.now.extent
            (name_of self.old.tree.owner (ino, piece.now)).reference < 4294967295
            → OnOk result (Stands self.new history items ((ino, piece.now) ∷ names)) }
        ensures sound { (history : History) (bytes : ℕ) (items : List ItemValue)
            (names : List (ℕ × PieceValue))
            → IsSubvolume self.old history bytes → Stands self.old history items names
            → Contains (extents_named self.old history names) (extent_of piece.now)
            → names_times self.old.tree.owner names piece.now.extent
            (name_of self.old.tree.owner (ino, piece.now)).reference < 4294967295
            → BreaksNone result }
        ensures tree { KeepsTree self.old self.new }
        ensures marks { OnOk result ((q : ℕ) → q ≢ piece.now.extent
            → full_in (book_of self.new.refs.refs q) ≡ full_in (book_of self.old.refs.refs q)) }
        ensures subvolume { (history : History) (bytes : ℕ) → IsSubvolume self.old history bytes
            → IsSubvolume self.new history bytes }
        ensures slots { free_slots self.new.land.space ≡ free_slots self.old.land.space }
        ensures heavier { OnOk result (BookGetsHeavier self.old.refs self.new.refs name_bytes) }
        ensures fault { MatchResult result (λ done. ⊤) (IsMisfitAt piece.now.extent) }
    {
        let _ascending = self.refs.refs().len();
        let at = piece.extent;
        if self.refs.refs().how_many(at) == 0 || !self.is_taken(piece) {
            return Err(misfit_at(at));
        }
        let reference = self.reference_of(ino, piece);
        if !self.refs.name(at, piece.extent_bytes, reference)? {
            return Err(misfit_at(at));
        }
        let _ascending_still = self.refs.refs().len();
        Ok(())
    }

    /// A piece names a new extent: its run, which is free, is taken. After want of memory nothing of it is of use.
    ///
    /// `Image` with `refs` comes where something at its address has a reference already.
    pub fn name_new(&mut self, ino: Ino, piece: &Piece) -> Result<(), BlockFault>
        requires free { IsTrue (is_free_run self.old.land.space piece.now.extent piece.now.extent_bytes) }
        ensures named { (history : History) (bytes : ℕ) (items : List ItemValue)
            (names : List (ℕ × PieceValue))
            → IsSubvolume self.old history bytes → Stands self.old history items names
            → OnOk result (Stands self.new history items ((ino, piece.now) ∷ names)) }
        ensures sound { (history : History) (bytes : ℕ) (items : List ItemValue)
            (names : List (ℕ × PieceValue))
            → IsSubvolume self.old history bytes → Stands self.old history items names
            → BreaksNone result }
        ensures tree { KeepsTree self.old self.new }
        ensures marks { OnOk result ((q : ℕ) → q ≢ piece.now.extent
            → full_in (book_of self.new.refs.refs q) ≡ full_in (book_of self.old.refs.refs q)) }
        ensures subvolume { (history : History) (bytes : ℕ) → IsSubvolume self.old history bytes
            → IsSubvolume self.new history bytes }
        ensures slots { free_slots self.new.land.space ≡ free_slots self.old.land.space }
        ensures heavier { OnOk result (BookGetsHeavier self.old.refs self.new.refs name_new_bytes) }
        ensures fault { MatchResult result (λ done. ⊤) (IsMisfitAt piece.now.extent) }
    {
        let _ascending = self.refs.refs().len();
        let at = piece.extent;
        if self.refs.refs().how_many(at) != 0 {
            return Err(misfit_at(at));
        }
        self.land.space.take_run(at, piece.extent_bytes / SECTOR)?;
        let reference = self.reference_of(ino, piece);
        if !self.refs.name(at, piece.extent_bytes, reference)? {
            return Err(misfit_at(at));
        }
        let _ascending_still = self.refs.refs().len();
        Ok(())
    }

    /// A piece names its extent no more. The run of an extent that none names any more is given back.
    ///
    /// `Image` with `refs` comes where the reference is not there, or the run that is to be given back is not taken.
    pub fn unname(&mut self, ino: Ino, piece: &Piece) -> Result<(), BlockFault>
        ensures unnamed { (history : History) (bytes : ℕ) (items : List ItemValue)
            (names : List (ℕ × PieceValue))
            → IsSubvolume self.old history bytes → Stands self.old history items ((ino, piece.now) ∷ names)
            → names_times self.old.tree.owner (filter_map name_told items) piece.now.extent
            (name_of self.old.tree.owner (ino, piece.now)).reference
            ≤ names_times self.old.tree.owner names piece.now.extent
            (name_of self.old.tree.owner (ino, piece.now)).reference
            → OnOk result (Stands self.new history items names) }
        ensures sound { (history : History) (bytes : ℕ) (items : List ItemValue)
            (names : List (ℕ × PieceValue))
            → IsSubvolume self.old history bytes → Stands self.old history items ((ino, piece.now) ∷ names)
            → names_times self.old.tree.owner (filter_map name_told items) piece.now.extent
            (name_of self.old.tree.owner (ino, piece.now)).reference
            ≤ names_times self.old.tree.owner names piece.now.extent
            (name_of self.old.tree.owner (ino, piece.now)).reference
            → BreaksNone result }
        ensures tree { KeepsTree self.old self.new }
        ensures marks { OnOk result ((q : ℕ) → q ≢ piece.now.extent
            → full_in (book_of self.new.refs.refs q) ≡ full_in (book_of self.old.refs.refs q)) }
        ensures subvolume { (history : History) (bytes : ℕ) → IsSubvolume self.old history bytes
            → IsSubvolume self.new history bytes }
        ensures slots { free_slots self.new.land.space ≡ free_slots self.old.land.space }
        ensures heavier { OnOk result (BookGetsHeavier self.old.refs self.new.refs 0) }
        ensures fault { MatchResult result (λ done. ⊤) (IsMisfitAt piece.now.extent) }
    {
        let _ascending = self.refs.refs().len();
        let at = piece.extent;
        let reference = self.reference_of(ino, piece);
        if !self.refs.unname(at, &reference) {
            return Err(misfit_at(at));
        }
        let _ascending_still = self.refs.refs().len();
        if self.refs.refs().how_many(at) > 0 {
            return Ok(());
        }
        if !self.is_taken(piece) {
            return Err(misfit_at(at));
        }
        self.land.space.give_run(at, piece.extent_bytes / SECTOR);
        Ok(())
    }
}
