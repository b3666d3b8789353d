// What stands in the place of a node that was edited.
use qg_num::Address;

/// The nodes that stand in the place of one that was edited, by their addresses in bytes: one, and another behind it
/// where the node was cut in two. All are fresh.
#[derive(Clone, Copy)]
pub(crate) struct Instead {
    pub now: Address,
    pub more: Option<Address>,
}
