// The counters of one group, moved by a change of owners.
ghost use Rattle.std.specs.Option.{SomeIff};
ghost use Rattle.qg_account.specs.Moves.{moved_by, shifted, CanMoveBy, CanShift};

use crate::standing::Standing;
use qg_num::Counters;

/// The counters of a group once so many bytes have other owners, by how those stood to its members and how these stand.
/// None where a counter can't give or take what is asked of it.
pub(crate) fn moved_by(
    counters: Counters,
    bytes: u64,
    before: Standing,
    now: Standing,
) -> Option<Counters>
    ensures { SomeIff result (CanMoveBy before now bytes counters) (moved_by before now bytes counters) }
{
    let rfer = shifted(counters.rfer, bytes, before.meets, now.meets)?;
    let excl = shifted(counters.excl, bytes, before.within, now.within)?;
    Some(Counters { rfer, excl })
}

// A counter in which bytes were counted or not, once they are counted or not.
fn shifted(counter: u64, bytes: u64, was: bool, is: bool) -> Option<u64>
    ensures { SomeIff result (CanShift was is bytes counter) (shifted was is bytes counter) }
{
    if is {
        if was {
            return Some(counter);
        }
        return counter.checked_add(bytes);
    }
    if was {
        return counter.checked_sub(bytes);
    }
    Some(counter)
}
