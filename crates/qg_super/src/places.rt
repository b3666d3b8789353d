/// Where the first superblock stands, in bytes (on-disk format, "superblock").
pub const FIRST_PLACE: u64 = 65536;

/// Where the second superblock stands, in bytes (on-disk format, "superblock").
pub const SECOND_PLACE: u64 = 67108864;

/// The bytes of a superblock (on-disk format, "superblock").
pub const SUPER_BYTES: usize = 4096;

/// The bytes of a sector (this project's own).
pub const SECTOR: u64 = 4096;

/// Where the node slots begin, in bytes (this project's own).
pub const SLOTS_BEGIN: u64 = 1048576;

/// Where the data area begins, in bytes (this project's own).
pub const DATA_BEGIN: u64 = 67174400;
