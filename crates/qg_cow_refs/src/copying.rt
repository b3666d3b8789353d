// The cases of a copy.
ghost use Rattle.std.specs.Prelude.{◌≡◌};
ghost use Rattle.qg_cow_refs.specs.Copying.{copy_case};

use crate::Edits;
use qg_num::RootId;

/// What becomes of the references of a node that the subvolume `tree` copies: `count` is how many references the node
/// has, the one through which the subvolume reaches it among them (this project's own).
pub fn edits(count: u64, full: bool, owner: RootId, tree: RootId) -> Edits
    ensures { result ≡ copy_case count full owner tree }
{
    if count > 1 {
        if owner == tree && !full {
            return Edits::ShareOld;
        }
        return Edits::AddKeyed;
    }
    if full {
        Edits::TurnKeyed
    } else {
        Edits::TakeOver
    }
}
