// A node cut in two.
ghost use Rattle.std.specs.Prelude.{◌≡◌, ◌+◌, ◌*◌, ◌≤◌, ◌<◌, ◌^◌, IfOk, OnErr};
ghost use Rattle.std.specs.List.{All, sum_by};
ghost use Rattle.qg_node.specs.Nodes.{used_bytes};
ghost use Rattle.qg_node.specs.NodeText.{IsNodeSize};
ghost use Rattle.qg_shape.specs.Cut.{IsCut};
ghost use Rattle.qg_shape.specs.Filled.{HasShortBodies, IsOverfull};
ghost use Rattle.qg_shape.specs.Outcomes.{IsSplit};

use crate::cut::cut_index;
use crate::part::Part;
use qg_node::{HEADER_BYTES, Header, Node};
use qg_num::{Address, NoMemory, Sequence};

/// Cuts a node in two that has too much by an item at most: it keeps a front, and the answer has the rest, at another
/// address. Where memory is refused, it stays as it was.
///
/// `newest` is where the item or pointer stands that was put in last. Where that is the last one, as where keys come in
/// ascending, the front is left as full as can be; else both parts take about a half.
pub fn split(
    node: &mut Node,
    nodesize: u32,
    newest: usize,
    address: Address,
) -> Result<Node, NoMemory>
    requires size { IsNodeSize nodesize }
    requires short { HasShortBodies node.old }
    requires overfull { IsOverfull nodesize node.old }
    requires by_one { 101 + used_bytes node.old ≤ nodesize + 1049 }
    ensures split { IfOk result (λ rest. IsSplit nodesize address node.old node.new rest) }
    ensures err { OnErr result (node.new ≡ node.old) }
{
    let room = (nodesize as usize - HEADER_BYTES) as u64;
    let total = node.used_bytes() as u64;
    let header = Header {
        address,
        ..node.header()
    };
    match node {
        Node::Leaf { items, .. } => {
            let items = cut_off(items, room, total, newest)?;
            Ok(Node::Leaf { header, items })
        }
        Node::Inner { pointers, .. } => {
            let pointers = cut_off(pointers, room, total, newest)?;
            Ok(Node::Inner { header, pointers })
        }
    }
}

// Takes what is past the cut into a list of its own. Where memory is refused, the list stays as it was.
fn cut_off<T: Part>(
    list: &mut Sequence<T>,
    room: u64,
    total: u64,
    newest: usize,
) -> Result<Sequence<T>, NoMemory>
    requires light { All (λ x. T.weight x ≤ 1049) list.old }
    requires total { total ≡ sum_by T.weight list.old }
    requires wide { 3995 ≤ room }
    requires narrow { room < 2 ^ 31 }
    requires heavy { room < total }
    requires by_one { total ≤ room + 1049 }
    ensures cut { IfOk result (λ rest. IsCut T.weight room list.old list.new rest) }
    ensures err { OnErr result (list.new ≡ list.old) }
{
    let count = cut_index(list.as_slice(), room, total, newest);
    Ok(list.split_off(count)?)
}
