// The bytes of elements, and the sets of those who reach them.
ghost use Rattle.std.specs.Prelude.{◌≡◌, ◌<◌, ◌^◌, ℕ, Bool, true, length, IfOk};
ghost use Rattle.std.specs.List.{All};
ghost use Rattle.qg_qgroup_counts.specs.Portions.{bytes_where, sum_where};

use crate::SetId;
use std::alloc::{AllocError, Global};

/// The bytes of a node or an extent, and the set of the subvolumes that reach it (this project's own).
#[derive(Clone, Copy)]
pub struct Portion {
    /// How many bytes it has.
    pub bytes: u64,
    /// Who reaches it.
    pub set: SetId,
}

/// For each of so many sets the bytes of all that have it.
pub(crate) fn sums_by_set(
    alloc: Global,
    count: usize,
    portions: &[Portion],
) -> Result<Vec<u64>, AllocError>
    requires inside { All (λ portion. portion.set < count) portions.now }
    requires small { bytes_where (λ _. true) portions.now < 2 ^ 64 }
    ensures same { IfOk result (λ sums. length sums.items ≡ count) }
    ensures sums { IfOk result (λ sums. (test : ℕ → Bool) →
        sum_where test 0 sums.items ≡ bytes_where test portions.now) }
{
    let mut sums = vec![in alloc; 0u64; count]?;
    for portion in portions {
        sums[portion.set.number()] += portion.bytes;
    }
    Ok(sums)
}
