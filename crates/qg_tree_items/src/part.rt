// What an item of a tree says.
ghost use Rattle.std.specs.Prelude.{◌≡◌};

use qg_image::node::Item;
use qg_num::{Generation, RootId};

/// What an item of one of the trees says (on-disk format, "item types").
pub trait TreePart: Sized + Drop {
    ghost use Rattle.std.specs.Prelude.{◌≡◌, ℕ, Option, IsTrue, is_some};
    ghost use Rattle.qg_image.specs.Types.{Item};
    ghost use Rattle.qg_image.specs.ItemMeaning.{when};
    ghost use Rattle.qg_image.specs.declared.tree.TreeKind.{TreeKind};
    ghost use Rattle.qg_image.specs.Walk.{is_owner, is_item_of};

    /// The tree.
    ghost tree: { TreeKind };

    /// What an item of it says, if anything.
    ghost meaning: { Item → Option Self };

    /// Whether a node of the tree may have this owner.
    fn is_owner(owner: RootId) -> bool
        ensures { result ≡ is_owner tree owner };

    /// What an item says, if the tree may hold it in an image of this generation.
    fn read(item: &Item, generation: Generation) -> Option<Self>
        ensures { result ≡ when (is_item_of tree generation item.now) (meaning item.now) };

    /// Each item that the tree may hold says something.
    ghost said: { (generation : ℕ) (item : Item) → IsTrue (is_item_of tree generation item)
        → IsTrue (is_some (meaning item)) };
}
