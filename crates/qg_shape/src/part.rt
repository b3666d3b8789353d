// What a node holds: items, or pointers.
use qg_node::{ITEM_HEADER_BYTES, Item, POINTER_BYTES, Pointer, Pointers, copy_items};
use qg_num::{NoMemory, Sequence};
use std::alloc::Global;

/// What takes bytes of a node: 1049 at most, as an item does with a body of 1024.
pub trait Weighed {
    ghost use Rattle.std.specs.Prelude.{◌≡◌, ◌≤◌, ℕ};

    ghost weight: { Self → ℕ };

    /// How many bytes it takes.
    fn weight(&self) -> u64
        requires { weight self.now ≤ 1049 }
        ensures { result ≡ weight self.now };
}

/// What can be moved between nodes.
pub(crate) trait Part: Weighed + Drop {
    ghost use Rattle.std.specs.Prelude.{◌≡◌, IfOk};

    /// The same once more.
    fn copies(alloc: Global, parts: &[Self]) -> Result<Sequence<Self>, NoMemory>
        ensures { IfOk result (λ copies. copies ≡ parts.now) };
}

impl Weighed for Item {
    ghost use Rattle.qg_node.specs.Nodes.{item_bytes};

    ghost weight = { item_bytes };

    fn weight(&self) -> u64 {
        (ITEM_HEADER_BYTES + self.body.len()) as u64
    }
}

impl Part for Item {
    fn copies(alloc: Global, parts: &[Item]) -> Result<Sequence<Item>, NoMemory> {
        Ok(copy_items(alloc, parts)?)
    }
}

impl Weighed for Pointer {
    ghost weight = { λ _. 33 };

    fn weight(&self) -> u64 {
        POINTER_BYTES as u64
    }
}

impl Part for Pointer {
    fn copies(alloc: Global, parts: &[Pointer]) -> Result<Sequence<Pointer>, NoMemory> {
        Ok(Pointers::from_slice(alloc, parts)?)
    }
}
