// The device calls of a commit.
ghost use Rattle.std.specs.Prelude.{◌≡◌, ◌≤◌, List, length, IfErr, IsErrOf, OnOk, IsTrue};
ghost use Rattle.std.specs.List.{AllByRecursion};
ghost use Rattle.qg_device.specs.Cause.{HasCause};
ghost use Rattle.qg_device.specs.History.{Event, Recorded, history_after};
ghost use Rattle.qg_node.specs.NodeText.{IsNodeSize};
ghost use Rattle.qg_super.specs.SuperText.{is_super};
ghost use Rattle.qg_commit.specs.Calls.{
  IsWritable,
  MadeFront,
  node_calls,
  unsure_superblock_calls,
  with_nodes,
  with_superblocks,
};

use qg_disk::{Disk, DiskFault};
use qg_node::{Node, write_node};
use qg_super::{FIRST_PLACE, SECOND_PLACE, SUPER_BYTES, Super, write_super};

/// Writes nodes into their slots, one after the other, over a buffer of a node's size in bytes.
pub fn write_nodes<D: Disk>(
    disk: &mut D,
    nodes: &[Node],
    buffer: &mut [u8],
) -> Result<(), DiskFault>
    requires size { IsNodeSize (length buffer.old) }
    requires nodes { AllByRecursion (IsWritable (length buffer.old)) nodes.now }
    ensures calls { OnOk result (D.history disk.new
        ≡ history_after (with_nodes (length buffer.old) nodes.now) (D.history disk.old)) }
    ensures front { (events : List Event) → D.history disk.old ≡ Recorded events
        → MadeFront (node_calls (length buffer.old) nodes.now) events (D.history disk.new) }
    ensures no_less { D.size disk.old ≤ D.size disk.new }
    ensures memory { IsErrOf result DiskFault.NoMemory → IsTrue D.takes_memory }
    ensures cause { HasCause DiskFault.Failed (D.faults disk.old) (D.faults disk.new) result }
{
    for node in nodes {
        write_node(node, buffer);
        disk.write_at(node.header().address.value(), buffer)?;
    }
    Ok(())
}

/// Makes sure of what was done, and then writes the first superblock, and the second once the first is made sure of
/// (this project's own). Where it fails, the last sync was not made.
pub fn write_superblocks<D: Disk>(disk: &mut D, superblock: &Super) -> Result<(), DiskFault>
    requires { IsTrue (is_super superblock.now) }
    ensures calls { OnOk result (D.history disk.new
        ≡ history_after (with_superblocks superblock.now) (D.history disk.old)) }
    ensures front { (events : List Event) → D.history disk.old ≡ Recorded events
        → IfErr result (λ fault. MadeFront (unsure_superblock_calls superblock.now) events (D.history disk.new)) }
    ensures no_less { D.size disk.old ≤ D.size disk.new }
    ensures memory { IsErrOf result DiskFault.NoMemory → IsTrue D.takes_memory }
    ensures cause { HasCause DiskFault.Failed (D.faults disk.old) (D.faults disk.new) result }
{
    let mut text = [0; SUPER_BYTES];
    disk.sync()?;
    write_super(superblock, FIRST_PLACE, &mut text);
    disk.write_at(FIRST_PLACE, &text)?;
    disk.sync()?;
    write_super(superblock, SECOND_PLACE, &mut text);
    disk.write_at(SECOND_PLACE, &text)?;
    disk.sync()?;
    Ok(())
}
