// Another subvolume's tree comes to hand.
ghost use Rattle.std.specs.Prelude.{◌≡◌, ◌≢◌, ◌<◌, ℕ, List, IfNone, IfSome, IsTrue, false, length};
ghost use Rattle.std.specs.Prelude.{slice_index_or, slice_set};
ghost use Rattle.std.specs.List.{All, Contains, HoldsAt, filter_map};
ghost use Rattle.std.specs.List.Sorted.{IsNonDecreasingBy, IsPermutation};
ghost use Rattle.qg_device.specs.History.{History};
ghost use Rattle.qg_node.specs.declared.item.Item.{Item as ItemValue};
ghost use Rattle.qg_tree_edits.specs.Tree.{Root};
ghost use Rattle.qg_fs_tree.specs.Standing.{AreNumbered, CanTurn, IsSubvolume, IsTurned, Stands, items_in, layout_in};
ghost use Rattle.qg_fs_tree.specs.Standing.{name_told, trees_of};

use crate::FsTree;
use qg_num::RootId;
use qg_tree_edits::tree_read::Tree;
use std::mem;

/// The place of the tree of a number; none exactly where there is none.
fn place_of(trees: &[Tree], number: RootId) -> Option<usize>
    ensures inside { IfSome result (λ place. place < length trees.now) }
    ensures at { IfSome result (λ place. HoldsAt (λ tree. tree.owner ≡ number) trees.now place) }
    ensures none { IfNone result (All (λ tree. tree.owner ≢ number) trees.now) }
{
    for i in 0..trees.len() {
        if trees[i].owner() == number {
            return Some(i);
        }
    }
    None
}

/// The tree at hand and the one at a place change their places.
fn exchange(tree: &mut Tree, others: &mut [Tree], place: usize)
    requires { place < length others.old }
    ensures tree { tree.new ≡ slice_index_or others.old place tree.old }
    ensures others { others.new ≡ slice_set others.old place tree.old }
{
    mem::swap(tree, &mut others[place]);
}

/// Puts trees in the order of their numbers.
fn sort(trees: &mut Vec<Tree>)
    ensures ascending { IsNonDecreasingBy (λ tree. tree.owner) trees.new.items }
    ensures moved { IsPermutation trees.old.items trees.new.items }
{
    trees.sort_unstable_by_key(|tree| tree.owner());
}

impl FsTree {
    /// The tree of the subvolume `number` comes to hand, the one that was at hand goes among the others, and the book
    /// stands for the new one. The answer is whether there is such a tree; where there is none, nothing changes.
    ///
    /// The trees are the same layout then. Where they stand, and each piece that an item of the tree at hand tells is
    /// named once, they stand then, and the items are those of the tree that came to hand.
    pub fn turn_to(&mut self, number: RootId) -> bool
        ensures found { (tree : Root) → Contains (trees_of self.old) tree → tree.owner ≡ number → IsTrue result }
        ensures turned { IsTrue result → IsTurned self.old self.new number }
        ensures left { result ≡ false → self.new ≡ self.old }
        ensures numbers { AreNumbered self.old → AreNumbered self.new }
        ensures layout { (history : History) → AreNumbered self.old → IsTrue result
            → layout_in self.new history ≡ layout_in self.old history }
        ensures stands { (history : History) (bytes : ℕ) (items : List ItemValue)
            → IsSubvolume self.old history bytes
            → Stands self.old history items (filter_map name_told items) → IsTrue result
            → Stands self.new history (items_in self.new history self.new.tree)
            (filter_map name_told (items_in self.new history self.new.tree)) }
        ensures subvolume { (history : History) (bytes : ℕ) → IsSubvolume self.old history bytes
            → CanTurn self.old → IsTrue result
            → IsSubvolume self.new history bytes × CanTurn self.new }
    {
        if self.tree.owner() == number {
            self.refs.stand_for(number);
            return true;
        }
        let Some(place) = place_of(self.others.as_slice(), number) else {
            return false;
        };
        exchange(&mut self.tree, self.others.as_mut_slice(), place);
        sort(&mut self.others);
        self.refs.stand_for(number);
        true
    }
}
