// The device calls of a commit.
ghost use Rattle.std.specs.Prelude.{◌≡◌, ◌≤◌, List, length, All, IfErr, IsErrOf, OnOk, IsTrue};
ghost use Rattle.std.specs.List.{AllByRecursion};
ghost use Rattle.std.specs.List.Sorted.{IsStrictlySortedBy};
ghost use Rattle.std.specs.Map.{keys_of};
ghost use Rattle.std.specs.Ordering.{nat_cmp};
ghost use Rattle.qg_device.specs.Cause.{HasCause};
ghost use Rattle.qg_device.specs.History.{Event, Recorded, history_after};
ghost use Rattle.qg_node.specs.NodeText.{IsNodeSize};
ghost use Rattle.qg_super.specs.SuperText.{is_super};
ghost use Rattle.qg_commit.specs.Calls.{
  IsReadBack,
  IsWritable,
  MadeFront,
  node_calls,
  unsure_calls,
  with_commit,
  with_nodes,
};
ghost use Rattle.qg_commit.specs.Writing.{fresh_nodes, nodes_written};

use crate::other_trees::OtherTrees;
use crate::{write_nodes, write_superblocks};
use qg_blocks::Blocks;
use qg_disk::{Disk, DiskFault};
use qg_node::write_node;
use qg_num::Address;

// Writes the fresh nodes, which lie at these addresses, one after the other, over a buffer of a node's size in bytes.
fn write_fresh<D: Disk>(
    disk: &mut D,
    blocks: &Blocks,
    addresses: &[Address],
    buffer: &mut [u8],
) -> Result<(), DiskFault>
    requires size { IsNodeSize (length buffer.old) }
    requires nodes { AllByRecursion (IsWritable (length buffer.old)) (fresh_nodes blocks.now.draft) }
    requires addresses { addresses.now ≡ keys_of blocks.now.draft.fresh }
    requires ascending { IsStrictlySortedBy nat_cmp (keys_of blocks.now.draft.fresh) }
    ensures calls { OnOk result (D.history disk.new
        ≡ history_after (with_nodes (length buffer.old) (fresh_nodes blocks.now.draft)) (D.history disk.old)) }
    ensures front { (events : List Event) → D.history disk.old ≡ Recorded events
        → MadeFront (node_calls (length buffer.old) (fresh_nodes blocks.now.draft)) events (D.history disk.new) }
    ensures read { OnOk result (All (IsReadBack (length buffer.old)) (fresh_nodes blocks.now.draft)) }
    ensures no_less { D.size disk.old ≤ D.size disk.new }
    ensures memory { IsErrOf result DiskFault.NoMemory → IsTrue D.takes_memory }
    ensures cause { HasCause DiskFault.Failed (D.faults disk.old) (D.faults disk.new) result }
{
    for address in addresses {
        let node = blocks.peek(*address);
        write_node(node, buffer);
        disk.write_at(node.header().address.value(), buffer)?;
    }
    Ok(())
}

/// Writes the fresh nodes, which lie at these addresses, and the nodes of three trees, or of two while quota is off,
/// over a buffer of a node's size in bytes; then the first superblock, then the second, each once what was before is
/// made sure of (this project's own).
pub(crate) fn write_all<D: Disk>(
    disk: &mut D,
    blocks: &Blocks,
    addresses: &[Address],
    trees: &OtherTrees,
    buffer: &mut [u8],
) -> Result<(), DiskFault>
    requires superblock { IsTrue (is_super trees.now.superblock) }
    requires size { length buffer.old ≡ trees.now.superblock.nodesize }
    requires node_size { IsNodeSize (length buffer.old) }
    requires nodes { AllByRecursion (IsWritable (length buffer.old)) (nodes_written blocks.now.draft trees.now) }
    requires addresses { addresses.now ≡ keys_of blocks.now.draft.fresh }
    requires ascending { IsStrictlySortedBy nat_cmp (keys_of blocks.now.draft.fresh) }
    ensures calls { OnOk result (D.history disk.new
        ≡ history_after (with_commit trees.now.superblock (nodes_written blocks.now.draft trees.now))
        (D.history disk.old)) }
    ensures front { (events : List Event) → D.history disk.old ≡ Recorded events
        → IfErr result (λ fault.
        MadeFront (unsure_calls trees.now.superblock (nodes_written blocks.now.draft trees.now)) events
        (D.history disk.new)) }
    ensures read { OnOk result (All (IsReadBack (length buffer.old)) (fresh_nodes blocks.now.draft)) }
    ensures no_less { D.size disk.old ≤ D.size disk.new }
    ensures memory { IsErrOf result DiskFault.NoMemory → IsTrue D.takes_memory }
    ensures cause { HasCause DiskFault.Failed (D.faults disk.old) (D.faults disk.new) result }
{
    write_fresh(disk, blocks, addresses, buffer)?;
    write_nodes(disk, trees.roots.nodes.as_slice(), buffer)?;
    write_nodes(disk, trees.extents.nodes.as_slice(), buffer)?;
    write_nodes(disk, trees.quota_nodes(), buffer)?;
    write_superblocks(disk, &trees.superblock)?;
    Ok(())
}
