// Fresh nodes edited where they lie.
ghost use Rattle.std.specs.Prelude.{◌≡◌, ◌+◌, ◌-◌, ◌≤◌, None, Some, IfOk, IsSome, length};
ghost use Rattle.qg_node.specs.declared.node.Node.{Node as NodeValue};
ghost use Rattle.qg_num.specs.declared.rule.Rule.TheVariants as rule;
ghost use Rattle.qg_node.specs.Nodes.{own_items, own_pointers};
ghost use Rattle.qg_node.specs.NodeText.{IsNode};
ghost use Rattle.qg_shape.specs.Filled.{HasShortBodies};
ghost use Rattle.qg_shape.specs.Parts.{IsInner, IsLeaf, with_items, with_pointers};
ghost use Rattle.qg_blocks.specs.NodesFound.{fresh_at};
ghost use Rattle.qg_edit.specs.Edits.{CanEdit, IsShort, edited, growth_of};
ghost use Rattle.qg_edit.specs.Answering.{CanSplice, IsBrokenByChange, IsBrokenUnless};
ghost use Rattle.qg_edit.specs.Outcome.{spliced};
ghost use Rattle.qg_tree_edits.specs.Editing.{IsCutThere, IsRewritten};
ghost use Rattle.qg_tree_edits.specs.Steps.{FailsInPlace, HasNodeSize};

use qg_edit::{Edit, edit_leaf, splice};
use qg_node::{Node, Pointer};
use qg_node_alloc::Ground;
use qg_num::{Address, BlockFault};

/// Edits the fresh leaf at an address.
pub(crate) fn rewrite_leaf(
    land: &mut Ground,
    at: Address,
    edit: Edit,
) -> Result<Option<Node>, BlockFault>
    requires sizes { HasNodeSize land.old }
    requires fresh { IsSome (fresh_at land.old.blocks.draft at) }
    requires leaf { (node : NodeValue) → fresh_at land.old.blocks.draft at ≡ Some node → IsLeaf node }
    requires sound { (node : NodeValue) → fresh_at land.old.blocks.draft at ≡ Some node
        → IsNode land.old.space.sizes.nodesize node }
    requires short { IsShort edit.change }
    ensures rewritten { (node : NodeValue) → fresh_at land.old.blocks.draft at ≡ Some node
        → IsRewritten land.old land.new at node }
    ensures cut { (node : NodeValue) → fresh_at land.old.blocks.draft at ≡ Some node
        → IfOk result (λ rest. IsCutThere land.old.space.sizes.nodesize land.new at node
        (with_items node (edited edit (own_items node))) rest) }
    ensures whole { growth_of edit.change ≡ 0 → IfOk result (λ rest. rest ≡ None) }
    ensures fails { FailsInPlace land.old at (λ node. CanEdit edit (own_items node) × HasShortBodies node)
        (λ node. IsBrokenByChange land.old.space.sizes.nodesize edit.key edit.change node) result }
{
    let nodesize = land.blocks.nodesize();
    edit_leaf(land.blocks.get_mut(at), nodesize, edit)
}

/// Puts pointers in the place of those from one index up to another, in the fresh node at an address.
pub(crate) fn rewrite_pointers(
    land: &mut Ground,
    at: Address,
    from: usize,
    to: usize,
    new: &[Pointer],
) -> Result<Option<Node>, BlockFault>
    requires sizes { HasNodeSize land.old }
    requires fresh { IsSome (fresh_at land.old.blocks.draft at) }
    requires inner { (node : NodeValue) → fresh_at land.old.blocks.draft at ≡ Some node → IsInner node }
    requires sound { (node : NodeValue) → fresh_at land.old.blocks.draft at ≡ Some node
        → IsNode land.old.space.sizes.nodesize node }
    requires within { (node : NodeValue) → fresh_at land.old.blocks.draft at ≡ Some node
        → (from ≤ to) × (to ≤ length (own_pointers node)) }
    requires few { (1 ≤ length new.now) × (length new.now ≤ 2) × (length new.now ≤ to - from + 1) }
    ensures rewritten { (node : NodeValue) → fresh_at land.old.blocks.draft at ≡ Some node
        → IsRewritten land.old land.new at node }
    ensures cut { (node : NodeValue) → fresh_at land.old.blocks.draft at ≡ Some node
        → IfOk result (λ rest. IsCutThere land.old.space.sizes.nodesize land.new at node
        (with_pointers node (spliced from to new.now (own_pointers node))) rest) }
    ensures fits { length new.now ≤ to - from → IfOk result (λ rest. rest ≡ None) }
    ensures fails { FailsInPlace land.old at (λ node. CanSplice from to new.now node)
        (λ node. IsBrokenUnless rule.Refs node (CanSplice from to new.now node)) result }
{
    let nodesize = land.blocks.nodesize();
    splice(land.blocks.get_mut(at), nodesize, from, to, new)
}
