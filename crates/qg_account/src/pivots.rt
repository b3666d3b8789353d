// The owners by which the groups are found that a change of owners can move.
ghost use Rattle.std.specs.Prelude.{◌≡◌, ◌+◌, ◌<◌, ⊤, length, slice_index, IfOk, MatchOption};
ghost use Rattle.qg_account.specs.Pivots.{AreFirstPivots, ArePivots};

use qg_num::{NoMemory, RootId, Sequence};
use std::alloc::Global;

/// How many of the owners before and now a walk over both lists has passed, and whether one that stays was found.
#[derive(Clone, Copy)]
pub(crate) struct Walk {
    pub(crate) old: usize,
    pub(crate) new: usize,
    pub(crate) stays: bool,
}

/// Each owner that went or came, and one that stays, if one does. Where both lists ascend, these are all.
pub(crate) fn pivots(
    alloc: Global,
    before: &[RootId],
    now: &[RootId],
) -> Result<Sequence<RootId>, NoMemory>
    ensures { IfOk result (λ found. ArePivots before.now now.now found) }
{
    let mut found = Sequence::new(alloc);
    let mut walk = Walk {
        old: 0,
        new: 0,
        stays: false,
    };
    while let Some(next) = step(&mut found, before, now, walk)? {
        walk = next;
    }
    Ok(found)
}

// The next step of a walk over both lists; none where it is over.
fn step(
    found: &mut Sequence<RootId>,
    before: &[RootId],
    now: &[RootId],
    walk: Walk,
) -> Result<Option<Walk>, NoMemory>
    requires { AreFirstPivots before.now now.now walk found.old }
    ensures found { IfOk result (λ next. MatchOption next (ArePivots before.now now.now found.new)
        (λ next. AreFirstPivots before.now now.now next found.new)) }
    ensures further { IfOk result (λ next. MatchOption next ⊤ (λ next. walk.old + walk.new < next.old + next.new)) }
{
    if walk.old == before.len() {
        if walk.new == now.len() {
            return Ok(None);
        }
        return came(found, before, now, walk);
    }
    if walk.new == now.len() {
        return went(found, before, now, walk);
    }
    if before[walk.old] == now[walk.new] {
        return stayed(found, before, now, walk);
    }
    if before[walk.old].value() < now[walk.new].value() {
        return went(found, before, now, walk);
    }
    came(found, before, now, walk)
}

// The next owner before is taken.
fn went(
    found: &mut Sequence<RootId>,
    before: &[RootId],
    now: &[RootId],
    walk: Walk,
) -> Result<Option<Walk>, NoMemory>
    requires found { AreFirstPivots before.now now.now walk found.old }
    requires some { walk.old < length before.now }
    ensures found { IfOk result (λ next. MatchOption next (ArePivots before.now now.now found.new)
        (λ next. AreFirstPivots before.now now.now next found.new)) }
    ensures further { IfOk result (λ next. MatchOption next ⊤ (λ next. walk.old + walk.new < next.old + next.new)) }
{
    found.push(before[walk.old])?;
    let next = Walk {
        old: walk.old + 1,
        new: walk.new,
        stays: walk.stays,
    };
    Ok(Some(next))
}

// The next owner now is taken.
fn came(
    found: &mut Sequence<RootId>,
    before: &[RootId],
    now: &[RootId],
    walk: Walk,
) -> Result<Option<Walk>, NoMemory>
    requires found { AreFirstPivots before.now now.now walk found.old }
    requires some { walk.new < length now.now }
    ensures found { IfOk result (λ next. MatchOption next (ArePivots before.now now.now found.new)
        (λ next. AreFirstPivots before.now now.now next found.new)) }
    ensures further { IfOk result (λ next. MatchOption next ⊤ (λ next. walk.old + walk.new < next.old + next.new)) }
{
    found.push(now[walk.new])?;
    let next = Walk {
        old: walk.old,
        new: walk.new + 1,
        stays: walk.stays,
    };
    Ok(Some(next))
}

// The next owner before is the next one now too: the first of these is taken.
fn stayed(
    found: &mut Sequence<RootId>,
    before: &[RootId],
    now: &[RootId],
    walk: Walk,
) -> Result<Option<Walk>, NoMemory>
    requires found { AreFirstPivots before.now now.now walk found.old }
    requires old { walk.old < length before.now }
    requires new { walk.new < length now.now }
    requires same { slice_index before.now walk.old ≡ slice_index now.now walk.new }
    ensures found { IfOk result (λ next. MatchOption next (ArePivots before.now now.now found.new)
        (λ next. AreFirstPivots before.now now.now next found.new)) }
    ensures further { IfOk result (λ next. MatchOption next ⊤ (λ next. walk.old + walk.new < next.old + next.new)) }
{
    let next = Walk {
        old: walk.old + 1,
        new: walk.new + 1,
        stays: true,
    };
    if walk.stays {
        return Ok(Some(next));
    }
    let owner = before[walk.old];
    found.push(owner)?;
    Ok(Some(next))
}
