// Items of the quota tree, one by one.
ghost use Rattle.std.specs.Prelude.{◌≡◌, ◌≤◌, ◌<◌, ◌^◌, IfOk, IfSome};
ghost use Rattle.qg_quota.specs.Writable.{CountersFit, LimitsFit};
ghost use Rattle.qg_quota.specs.Written.{
  flag_of,
  info_of,
  item_of_info,
  item_of_limit,
  item_of_relation,
  item_of_status,
  limit_of,
};

use qg_image::Group;
use qg_items::kind::{QGROUP_INFO, QGROUP_LIMIT, QGROUP_RELATION, QGROUP_STATUS};
use qg_items::{
    QGROUP_INFO_BYTES, QGROUP_LIMIT_BYTES, QGROUP_STATUS_BYTES, QgroupInfo, QgroupLimit,
    QgroupStatus, write_info, write_limit, write_status,
};
use qg_node::Item;
use qg_num::{Counters, Generation, GroupId};
use std::alloc::{AllocError, Global};

/// The state of quota.
pub(crate) fn status_item(alloc: Global, status: &QgroupStatus) -> Result<Item, AllocError>
    ensures { IfOk result (λ item. item ≡ item_of_status status.now) }
{
    let mut bytes = [0; QGROUP_STATUS_BYTES];
    write_status(status, &mut bytes);
    Item::new(alloc, 0, QGROUP_STATUS, 0, &bytes)
}

/// A group's counters.
pub(crate) fn info_item(alloc: Global, entry: &(GroupId, Group)) -> Result<Item, AllocError>
    ensures exact { IfOk result (λ item. item ≡ item_of_info entry.now) }
    ensures fits { CountersFit entry.now }
{
    let number = entry.0.number();
    let info = info_of(entry.1.stamp, &entry.1.counters);
    let mut bytes = [0; QGROUP_INFO_BYTES];
    write_info(&info, &mut bytes);
    Item::new(alloc, 0, QGROUP_INFO, number, &bytes)
}

// The counters, which the commit `stamp` changed last.
fn info_of(stamp: Generation, counters: &Counters) -> QgroupInfo
    ensures value { result ≡ info_of stamp counters.now }
    ensures stamp { stamp < 2 ^ 64 }
    ensures rfer { counters.now.rfer < 2 ^ 64 }
    ensures excl { counters.now.excl < 2 ^ 64 }
{
    // A proof knows a number's range once it is read.
    let rfer = of_64_bits(counters.rfer);
    let excl = of_64_bits(counters.excl);
    let stamp = stamp.value();
    QgroupInfo {
        generation: Generation::new(stamp),
        rfer,
        rfer_cmpr: rfer,
        excl,
        excl_cmpr: excl,
    }
}

// The same number.
fn of_64_bits(number: u64) -> u64
    ensures same { result ≡ number }
    ensures small { number < 2 ^ 64 }
{
    number
}

/// A group's limits.
pub(crate) fn limit_item(alloc: Global, entry: &(GroupId, Group)) -> Result<Item, AllocError>
    ensures exact { IfOk result (λ item. item ≡ item_of_limit entry.now) }
    ensures fits { LimitsFit entry.now.1.max_rfer entry.now.1.max_excl }
{
    let limit = limit_of(entry.1.max_rfer, entry.1.max_excl);
    let mut bytes = [0; QGROUP_LIMIT_BYTES];
    write_limit(&limit, &mut bytes);
    Item::new(alloc, 0, QGROUP_LIMIT, entry.0.number(), &bytes)
}

// The limits, with the flags of those that are set.
fn limit_of(max_rfer: Option<u64>, max_excl: Option<u64>) -> QgroupLimit
    ensures value { result ≡ limit_of max_rfer max_excl }
    ensures fits { LimitsFit max_rfer max_excl }
{
    QgroupLimit {
        flags: flag_of(1, max_rfer) + flag_of(2, max_excl),
        max_rfer: max_rfer.unwrap_or(0),
        max_excl: max_excl.unwrap_or(0),
    }
}

// The flag of a limit, where it is set.
fn flag_of(flag: u64, most: Option<u64>) -> u64
    ensures exact { result ≡ flag_of flag most }
    ensures bound { result ≤ flag }
    ensures small { IfSome most (λ most. most < 2 ^ 64) }
{
    match most {
        None => 0,
        Some(_) => flag,
    }
}

/// One end of a relation. Its body is empty.
pub(crate) fn relation_item(alloc: Global, group: u64, other: u64) -> Result<Item, AllocError>
    ensures { IfOk result (λ item. item ≡ item_of_relation (group, other)) }
{
    Item::new(alloc, group, QGROUP_RELATION, other, &[])
}
