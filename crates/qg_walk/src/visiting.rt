// Reading one node, and judging it.
ghost use Rattle.std.specs.Prelude.{◌≡◌, ◌≤◌, ◌∷◌, ◌++◌, [], List, length, Ok, IfOk, IsTrue};
ghost use Rattle.qg_device.specs.Cause.{HasCause};
ghost use Rattle.qg_device.specs.History.{Event, Recorded, content};
ghost use Rattle.qg_node.specs.declared.node.Node.{Node as NodeValue};
ghost use Rattle.qg_super.specs.Places.{is_served, total_bytes};
ghost use Rattle.qg_super.specs.SuperText.{sizes_of};
ghost use Rattle.qg_image.specs.Walk.{node_found};
ghost use Rattle.qg_walk.specs.Fault.{FailsAs};
ghost use Rattle.qg_walk.specs.Standing.{IsJudged, standing_failure};

use crate::form::form_failure;
use crate::slot::node_at;
use crate::{NodeList, OpenFault};
use qg_disk::Disk;
use qg_image::Expected;
use qg_node::Node;
use qg_num::Address;
use qg_super::Super;
use qg_tree_items::TreePart;
use std::alloc::Global;

/// Reads the node at an address, judges it by all rules but those on its items, and keeps what is wanted of it.
pub fn visit<P: TreePart, N: NodeList, D: Disk>(
    alloc: Global,
    disk: &mut D,
    superblock: &Super,
    buffer: &mut [u8],
    nodes: &mut N,
    expected: &Expected,
    address: Address,
) -> Result<Node, OpenFault>
    requires served { IsTrue (is_served (sizes_of superblock.now)) }
    requires inside { total_bytes (sizes_of superblock.now) ≤ D.size disk.old }
    requires buffer { length buffer.old ≡ superblock.now.nodesize }
    ensures failure { (events : List Event) → D.history disk.old ≡ Recorded events
        → FailsAs result (standing_failure P.tree superblock.now expected.now address
        (node_found superblock.now (content events) address)) }
    ensures found { (events : List Event) → D.history disk.old ≡ Recorded events
        → IfOk result (λ node. node_found superblock.now (content events) address ≡ Ok node) }
    ensures judged { IfOk result (λ node. IsJudged P.tree superblock.now expected.now address node) }
    ensures kept { IfOk result (λ node. (before : List NodeValue) → N.keeps nodes.old before
        → N.keeps nodes.new (before ++ node ∷ [])) }
    ensures history { D.history disk.new ≡ D.history disk.old }
    ensures size { D.size disk.new ≡ D.size disk.old }
    ensures cause { HasCause OpenFault.Disk (D.faults disk.old) (D.faults disk.new) result }
{
    let node = node_at(alloc, disk, superblock, buffer, address)?;
    if let Some(failure) = form_failure::<P>(superblock, expected, address, &node) {
        return Err(OpenFault::from(failure));
    }
    nodes.push(&node)?;
    Ok(node)
}
