// Items of the quota tree.
ghost use Rattle.std.specs.Prelude.{◌≡◌, length, IfSome};
ghost use Rattle.qg_items.specs.ItemText.{status_text, info_text, limit_text};
ghost use Rattle.qg_items.specs.ItemReading.{status_read, info_read, limit_read};

use qg_num::{Generation, is_zero, put_u64, put_zeros, u64_at};

/// The bytes of a QGROUP_STATUS body (on-disk format, QGROUP_STATUS).
pub const QGROUP_STATUS_BYTES: usize = 32;

/// The bytes of a QGROUP_INFO body (on-disk format, QGROUP_INFO).
pub const QGROUP_INFO_BYTES: usize = 40;

/// The bytes of a QGROUP_LIMIT body (on-disk format, QGROUP_LIMIT).
pub const QGROUP_LIMIT_BYTES: usize = 40;

/// The state of quota (on-disk format, QGROUP_STATUS, version 1).
#[derive(Clone, Copy, PartialEq, Eq)]
pub struct QgroupStatus {
    /// The superblock's generation.
    pub generation: Generation,
    /// ON 1.
    pub flags: u64,
    /// How far a rescan has come, in bytes: 0.
    pub cursor: u64,
}

/// A group's counters, in bytes (on-disk format, QGROUP_INFO).
#[derive(Clone, Copy, PartialEq, Eq)]
pub struct QgroupInfo {
    /// The generation of the commit that last changed the counters.
    pub generation: Generation,
    /// Referenced bytes.
    pub rfer: u64,
    /// The same, compressed: equal to it.
    pub rfer_cmpr: u64,
    /// Exclusive bytes.
    pub excl: u64,
    /// The same, compressed: equal to it.
    pub excl_cmpr: u64,
}

/// A group's limits, in bytes (on-disk format, QGROUP_LIMIT).
#[derive(Clone, Copy, PartialEq, Eq)]
pub struct QgroupLimit {
    /// Which limits are set: MAX_RFER 1, MAX_EXCL 2.
    pub flags: u64,
    /// The limit on referenced bytes, 0 where it isn't set.
    pub max_rfer: u64,
    /// The limit on exclusive bytes, 0 where it isn't set.
    pub max_excl: u64,
}

/// Reads a QGROUP_STATUS body: nothing where the length isn't 32 or the version isn't 1 (on-disk format,
/// QGROUP_STATUS).
#[tactic(auto, unfolding(crate::specs::ItemReading::status_read))]
pub fn read_status(bytes: &[u8]) -> Option<QgroupStatus>
    ensures exact { result ≡ status_read bytes.now }
    ensures spelled { IfSome result (λ status. bytes.now ≡ status_text status) }
{
    if bytes.len() != QGROUP_STATUS_BYTES || u64_at(bytes, 0) != 1 {
        return None;
    }
    Some(QgroupStatus {
        generation: Generation::new(u64_at(bytes, 8)),
        flags: u64_at(bytes, 16),
        cursor: u64_at(bytes, 24),
    })
}

/// Writes a QGROUP_STATUS body of version 1 (on-disk format, QGROUP_STATUS).
pub fn write_status(status: &QgroupStatus, bytes: &mut [u8])
    requires { length bytes.old ≡ QGROUP_STATUS_BYTES }
    ensures { bytes.new ≡ status_text status.now }
{
    put_u64(bytes, 0, 1);
    put_u64(bytes, 8, status.generation.value());
    put_u64(bytes, 16, status.flags);
    put_u64(bytes, 24, status.cursor);
}

/// Reads a QGROUP_INFO body: nothing where the length isn't 40 (on-disk format, QGROUP_INFO).
#[tactic(auto, unfolding(crate::specs::ItemReading::info_read))]
pub fn read_info(bytes: &[u8]) -> Option<QgroupInfo>
    ensures exact { result ≡ info_read bytes.now }
    ensures spelled { IfSome result (λ info. bytes.now ≡ info_text info) }
{
    if bytes.len() != QGROUP_INFO_BYTES {
        return None;
    }
    Some(QgroupInfo {
        generation: Generation::new(u64_at(bytes, 0)),
        rfer: u64_at(bytes, 8),
        rfer_cmpr: u64_at(bytes, 16),
        excl: u64_at(bytes, 24),
        excl_cmpr: u64_at(bytes, 32),
    })
}

/// Writes a QGROUP_INFO body (on-disk format, QGROUP_INFO).
pub fn write_info(info: &QgroupInfo, bytes: &mut [u8])
    requires { length bytes.old ≡ QGROUP_INFO_BYTES }
    ensures { bytes.new ≡ info_text info.now }
{
    put_u64(bytes, 0, info.generation.value());
    put_u64(bytes, 8, info.rfer);
    put_u64(bytes, 16, info.rfer_cmpr);
    put_u64(bytes, 24, info.excl);
    put_u64(bytes, 32, info.excl_cmpr);
}

/// Reads a QGROUP_LIMIT body: nothing where the length isn't 40 or a limit on reservations isn't 0 (on-disk format,
/// QGROUP_LIMIT).
#[tactic(auto, unfolding(crate::specs::ItemReading::limit_read))]
pub fn read_limit(bytes: &[u8]) -> Option<QgroupLimit>
    ensures exact { result ≡ limit_read bytes.now }
    ensures spelled { IfSome result (λ limit. bytes.now ≡ limit_text limit) }
{
    if bytes.len() != QGROUP_LIMIT_BYTES || !is_zero(bytes, 24, QGROUP_LIMIT_BYTES) {
        return None;
    }
    Some(QgroupLimit {
        flags: u64_at(bytes, 0),
        max_rfer: u64_at(bytes, 8),
        max_excl: u64_at(bytes, 16),
    })
}

/// Writes a QGROUP_LIMIT body, the limits on reservations 0 (on-disk format, QGROUP_LIMIT).
pub fn write_limit(limit: &QgroupLimit, bytes: &mut [u8])
    requires { length bytes.old ≡ QGROUP_LIMIT_BYTES }
    ensures { bytes.new ≡ limit_text limit.now }
{
    put_u64(bytes, 0, limit.flags);
    put_u64(bytes, 8, limit.max_rfer);
    put_u64(bytes, 16, limit.max_excl);
    put_zeros(bytes, 24, 16);
}
