// What reading and writing a number are to each other.
ghost use Rattle.qg_num.specs.Fields.{u32_at, u32_bytes, u64_at, u64_bytes};
ghost use Rattle.qg_num.specs.Laws.{ReadsBack, WritesBack};

/// A law: a number that was written is read again (this project's own).
pub fn reads_back()
    ensures u64 { ReadsBack u64_bytes u64_at 64 }
    ensures u32 { ReadsBack u32_bytes u32_at 32 }
{}

/// A law: bytes that were read as a number, and written again, are the same (this project's own).
pub fn writes_back()
    ensures u64 { WritesBack u64_bytes u64_at 8 }
    ensures u32 { WritesBack u32_bytes u32_at 4 }
{}
