// The rule on the root tree.
ghost use Rattle.std.specs.Prelude.{◌≡◌};
ghost use Rattle.qg_image.specs.Table.{has_key, value_at};
ghost use Rattle.qg_image.specs.Verdict.{are_roots};

use qg_image::RootPart;
use qg_items::RootItem;
use qg_items::tree::{EXTENT_TREE, TOP_LEVEL};
use qg_num::RootId;

/// Whether the trees that must be there are (rule `root`).
#[tactic(auto, unfolding(qg_image::specs::Verdict::are_roots))]
pub fn are_roots(parts: &[RootPart]) -> bool
    ensures { result ≡ are_roots parts.now }
{
    has_root(EXTENT_TREE, parts) && has_root(TOP_LEVEL, parts)
}

/// The ROOT_ITEM of a tree; None where there is no such tree.
pub fn root_of(tree: RootId, parts: &[RootPart]) -> Option<RootItem>
    ensures { result ≡ value_at tree parts.now }
{
    for part in parts {
        if part.0 == tree {
            return Some(part.1);
        }
    }
    None
}

fn has_root(tree: u64, parts: &[RootPart]) -> bool
    ensures { result ≡ has_key tree parts.now }
{
    root_of(RootId::new(tree), parts).is_some()
}
