// The cases of a node that is left.
ghost use Rattle.std.specs.Prelude.{◌≡◌};
ghost use Rattle.qg_cow_refs.specs.Left.{left_case};

use crate::Leaving;
use qg_num::RootId;

/// What becomes of a node that the subvolume `tree` no longer reaches: `count` is how many references the node has left
/// (this project's own).
pub fn leaving(count: u64, full: bool, owner: RootId, tree: RootId) -> Leaving
    ensures { result ≡ left_case count full owner tree }
{
    if count == 0 {
        return Leaving::Goes;
    }
    if owner == tree && !full {
        Leaving::TurnsFull
    } else {
        Leaving::Stays
    }
}
