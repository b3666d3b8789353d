// What a level of a tree is made of: items, or pointers to the level below.
use crate::cut::Weighed;
use qg_node::{
    Header, ITEM_HEADER_BYTES, Item, Node, POINTER_BYTES, Pointer, Pointers, copy_items,
};
use qg_num::NoMemory;
use std::alloc::Global;

/// What a node holds.
pub(crate) trait Part: Weighed {
    ghost use Rattle.std.specs.Prelude.{◌≡◌, ◌≤◌, ℕ, List, length, All, IfOk};
    ghost use Rattle.std.specs.List.{sum_by};
    ghost use Rattle.qg_node.specs.declared.node.Node.{Node};
    ghost use Rattle.qg_node.specs.Nodes.{header_of, used_bytes};
    ghost use Rattle.qg_node.specs.NodeText.{IsLevelled};
    ghost use Rattle.qg_node.specs.Fits.{NodeFits};

    /// The parts of a node.
    ghost own: { Node → List Self };

    /// What is asked of a part's numbers.
    ghost fits: { Self → Type 0 };

    /// The levels whose nodes hold such parts.
    ghost on_level: { ℕ → Type 0 };

    /// A node of these parts.
    fn node(alloc: Global, header: Header, parts: &[Self]) -> Result<Node, NoMemory>
        requires level { on_level header.level }
        requires some { 1 ≤ header.level → 1 ≤ length parts.now }
        requires fit { All fits parts.now }
        ensures header { IfOk result (λ node. header_of node ≡ header) }
        ensures own { IfOk result (λ node. own node ≡ parts.now) }
        ensures used { IfOk result (λ node. used_bytes node ≡ sum_by Self.weight parts.now) }
        ensures levelled { IfOk result (λ node. IsLevelled node) }
        ensures fits { IfOk result (λ node. NodeFits node) };
}

impl Weighed for Item {
    ghost use Rattle.qg_node.specs.Nodes.{item_bytes};

    ghost weight = { item_bytes };

    fn weight(&self) -> u64 {
        (ITEM_HEADER_BYTES + self.body.len()) as u64
    }
}

impl Part for Item {
    ghost use Rattle.std.specs.Prelude.{◌≡◌, ⊤};
    ghost use Rattle.qg_node.specs.Nodes.{own_items};

    ghost own = { own_items };

    // Its numbers are copied.
    ghost fits = { λ _. ⊤ };

    ghost on_level = { λ level. level ≡ 0 };

    fn node(alloc: Global, header: Header, parts: &[Item]) -> Result<Node, NoMemory> {
        Ok(Node::Leaf {
            header,
            items: copy_items(alloc, parts)?,
        })
    }
}

impl Weighed for Pointer {
    ghost weight = { λ _. 33 };

    fn weight(&self) -> u64 {
        POINTER_BYTES as u64
    }
}

impl Part for Pointer {
    ghost use Rattle.std.specs.Prelude.{◌≤◌};
    ghost use Rattle.qg_node.specs.Fits.{PointerFits};
    ghost use Rattle.qg_node.specs.Nodes.{own_pointers};

    ghost own = { own_pointers };

    ghost fits = { PointerFits };

    ghost on_level = { λ level. (1 ≤ level) × (level ≤ 7) };

    fn node(alloc: Global, header: Header, parts: &[Pointer]) -> Result<Node, NoMemory> {
        Ok(Node::Inner {
            header,
            pointers: Pointers::from_slice(alloc, parts)?,
        })
    }
}
