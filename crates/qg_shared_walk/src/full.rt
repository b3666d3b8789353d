// Which nodes the extent tree says to be full.
ghost use Rattle.std.specs.Prelude.{◌≡◌, ◌==◌, ℕ, IfOk};
ghost use Rattle.std.specs.List.{list_any};
ghost use Rattle.std.specs.List.Sorted.{IsNonDecreasing};
ghost use Rattle.std.specs.Option.{option_to_list};
ghost use Rattle.qg_image.specs.ImageState.{is_full_record};
ghost use Rattle.qg_shared_walk.specs.Marked.{full_address, is_marked};

use qg_image::ExtentPart;
use qg_num::{Address, NoMemory};
use std::alloc::Global;

// FULL_BACKREF among the flags of a node's record (on-disk format, EXTENT_ITEM).
const FULL: u64 = 256;

/// The addresses of full nodes, ascending.
pub(crate) fn full_nodes(alloc: Global, parts: &[ExtentPart]) -> Result<Vec<Address>, NoMemory>
    ensures ascending { IfOk result (λ full. IsNonDecreasing full.items) }
    ensures marks { IfOk result (λ full. (address : ℕ)
        → is_marked full.items address ≡ list_any (is_full_record address) parts.now) }
{
    let mut full = Vec::new(alloc);
    for part in parts {
        if let Some(address) = full_address(part) {
            full.push(address)?;
        }
    }
    full.sort_unstable();
    Ok(full)
}

// The address of a node that its record says to be full.
fn full_address(part: &ExtentPart) -> Option<Address>
    ensures { result ≡ full_address part.now }
{
    match part {
        ExtentPart::NodeRecord {
            address,
            extent,
            ..
        } if extent.flags / FULL % 2 == 1 => Some(*address),
        _ => None,
    }
}

/// Whether the node at an address is one of those.
pub(crate) fn is_full(full: &[Address], address: Address) -> bool
    requires { IsNonDecreasing full.now }
    ensures { result ≡ is_marked full.now address }
{
    full.binary_search(&address).is_ok()
}
