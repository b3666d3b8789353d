// Two neighbours.
ghost use Rattle.std.specs.Prelude.{◌≡◌, ◌⊎◌, ◌↔◌, IfOk, OnErr, IsTrue};
ghost use Rattle.qg_node.specs.NodeText.{IsNode, IsNodeSize};
ghost use Rattle.qg_node.specs.Nodes.{header_of, is_ascending, own_keys};
ghost use Rattle.qg_shape.specs.Filled.{HasShortBodies, IsThin};
ghost use Rattle.qg_shape.specs.Outcomes.{IsJoined};
ghost use Rattle.qg_shape.specs.Parts.{AreAlike};
ghost use Rattle.qg_blocks.specs.NodesFound.{BreaksNone};
ghost use Rattle.qg_edit.specs.Answering.{AnswersBy, CanMerge, IsBrokenByMerge};
ghost use Rattle.qg_edit.specs.Outcome.{AreNodesAfter, IsInFront};

use crate::cutting::{has_short_bodies, misfit, overlong};
use crate::ordering::are_joined;
use qg_node::Node;
use qg_num::BlockFault;
use qg_shape::{Joined, join};

/// Joins two neighbours of one level, of which one isn't a quarter full: into the left one where that fits, and else
/// both take about a half.
///
/// `Image` comes exactly where their keys don't follow each other, with the rule `refs` and the left node, and else
/// where a body has more than 1024 bytes, with `item` and the first node that has one. After an `Err` both are as they
/// were.
pub fn merge(left: &mut Node, right: &mut Node, nodesize: u32) -> Result<Joined, BlockFault>
    requires size { IsNodeSize nodesize }
    requires left { IsNode nodesize left.old }
    requires right { IsNode nodesize right.old }
    requires level { (header_of left.old).level ≡ (header_of right.old).level }
    requires thin { IsThin nodesize left.old ⊎ IsThin nodesize right.old }
    ensures joined { IfOk result (λ joined. IsJoined nodesize left.old right.old left.new right.new joined) }
    ensures nodes { IfOk result (λ joined. AreNodesAfter nodesize left.old right.old left.new right.new joined) }
    ensures answers { AnswersBy (CanMerge left.old right.old) (IsBrokenByMerge left.old right.old) result }
    ensures sound { IsInFront left.old right.old → HasShortBodies left.old → HasShortBodies right.old
        → BreaksNone result }
    ensures err { OnErr result ((left.new ≡ left.old) × (right.new ≡ right.old)) }
{
    if !is_in_front(left, right) {
        return Err(misfit(left));
    }
    if !has_short_bodies(left) {
        return Err(overlong(left));
    }
    if !has_short_bodies(right) {
        return Err(overlong(right));
    }
    Ok(join(left, right, nodesize)?)
}

// Whether the keys of one node are less than those of another.
fn is_in_front(left: &Node, right: &Node) -> bool
    requires left { IsTrue (is_ascending (own_keys left.now)) }
    requires right { IsTrue (is_ascending (own_keys right.now)) }
    requires alike { AreAlike left.now right.now }
    ensures { IsTrue result ↔ IsInFront left.now right.now }
{
    match left {
        Node::Leaf { items, .. } => match right {
            Node::Leaf { items: others, .. } => are_joined(items.as_slice(), others.as_slice()),
            Node::Inner { .. } => unreachable!(),
        },
        Node::Inner { pointers, .. } => match right {
            Node::Leaf { .. } => unreachable!(),
            Node::Inner {
                pointers: others,
                ..
            } => are_joined(pointers.as_slice(), others.as_slice()),
        },
    }
}
