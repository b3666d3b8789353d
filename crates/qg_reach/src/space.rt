// The rule on data extents.
ghost use Rattle.std.specs.Prelude.{◌≡◌, IsTrue};
ghost use Rattle.qg_super.specs.Places.{is_served, is_run};
ghost use Rattle.qg_reach.specs.Fits.{first_fits};
ghost use Rattle.qg_image.specs.Verdict.{is_extent, space_failure};

use qg_image::{Element, Failure};
use qg_num::Rule;
use qg_super::{DATA_BEGIN, SECTOR, Sizes};

/// The longest data extent, in bytes (this project's own).
pub const LONGEST_EXTENT: u64 = 134217728;

/// The first failure of the rule `space` over extents that ascend: the first one that lies where none may, or ends past
/// where the next one begins (this project's own).
pub fn space_failure(sizes: &Sizes, extents: &[Element]) -> Option<Failure>
    requires { IsTrue (is_served sizes.now) }
    ensures { result ≡ space_failure sizes.now extents.now }
{
    for (i, extent) in extents.iter().enumerate() {
        if !first_fits(sizes, &extents[i..]) {
            return Some(Failure::Broken {
                rule: Rule::Space,
                address: extent.address,
            });
        }
    }
    None
}

/// Whether the first of some extents lies where it may and ends by the next one.
fn first_fits(sizes: &Sizes, extents: &[Element]) -> bool
    requires { IsTrue (is_served sizes.now) }
    ensures { result ≡ first_fits sizes.now extents.now }
{
    match extents {
        [] => true,
        [extent] => is_extent(sizes, extent),
        [extent, next, ..] => {
            is_extent(sizes, extent)
                && extent.address.value() + extent.bytes <= next.address.value()
        }
    }
}

/// Whether an extent is one of whole sectors in the data area, and no longer than the longest.
fn is_extent(sizes: &Sizes, extent: &Element) -> bool
    requires { IsTrue (is_served sizes.now) }
    ensures { result ≡ is_extent sizes.now extent.now }
{
    is_run(sizes, extent.address.value(), extent.bytes) && extent.bytes <= LONGEST_EXTENT
}

/// Whether so many bytes at an address are whole sectors, one at least, in the data area.
#[tactic(auto, unfolding(qg_super::specs::Places::is_run))]
fn is_run(sizes: &Sizes, address: u64, bytes: u64) -> bool
    requires { IsTrue (is_served sizes.now) }
    ensures { result ≡ is_run sizes.now address bytes }
{
    let end = sizes.total_bytes();
    DATA_BEGIN <= address
        && (address - DATA_BEGIN) % SECTOR == 0
        && bytes % SECTOR == 0
        && 0 < bytes
        && bytes <= end
        && address <= end - bytes
}
