// Relations, from the member to the parent and from the parent to the member.
ghost use Rattle.std.specs.Prelude.{◌≡◌, IfOk, OnOk};
ghost use Rattle.qg_machine.specs.GroupChange.{with_pair};
ghost use Rattle.qg_qgroups.specs.Kept.{PairsFit};
ghost use Rattle.qg_quota.specs.Written.{both_ways};

use qg_num::GroupId;
use std::alloc::{AllocError, Global};
use std::collections::BTreeSet;

/// The two numbers of each relation, and the same turned round.
pub(crate) fn both_ways(
    alloc: Global,
    pairs: &[(GroupId, GroupId)],
) -> Result<BTreeSet<(u64, u64)>, AllocError>
    ensures keys { IfOk result (λ related. related.keys ≡ both_ways pairs.now) }
    ensures fit { IfOk result PairsFit }
{
    let mut related = BTreeSet::new(alloc);
    for pair in pairs {
        put_pair(&mut related, pair.0, pair.1)?;
    }
    for relation in pairs {
        put_pair(&mut related, relation.1, relation.0)?;
    }
    Ok(related)
}

// Puts a pair into a set.
fn put_pair(pairs: &mut BTreeSet<(u64, u64)>, of: GroupId, other: GroupId) -> Result<(), AllocError>
    requires { PairsFit pairs.old }
    ensures keys { OnOk result (pairs.new.keys ≡ with_pair (of, other) pairs.old.keys) }
    ensures fit { PairsFit pairs.new }
{
    pairs.insert((of.number(), other.number()))?;
    Ok(())
}
