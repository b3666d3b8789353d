// Why ranges and sizes are refused. All in bytes.
ghost use Rattle.std.specs.Prelude.{◌≡◌, ◌+◌, ◌==◌, ◌&&◌, ◌<◌, ◌∷◌, [], IfNone, nat_le, nat_lt};
ghost use Rattle.qg_num.specs.declared.refusal.Refusal.TheVariants as why;
ghost use Rattle.qg_image.specs.FilesOf.{is_aligned, largest_size};
ghost use Rattle.qg_image.specs.ItemMeaning.{first_some};
ghost use Rattle.qg_machine.specs.Refusals.{most_pending, no_align, no_far, refuse, share_a_byte};
ghost use Rattle.qg_image.specs.Verdict.{longest_extent};
ghost use Rattle.qg_file_commands.specs.Ranges.{IsClonable, IsWritable};

use qg_num::{Ino, Refusal, RootId};
use qg_reach::LONGEST_EXTENT;
use qg_super::SECTOR;
use qg_tree_items::LARGEST_SIZE;

/// The most file commands that may be pending.
pub(crate) const MOST_PENDING: u64 = 65536;

/// Why a range may not be written, all else being there, where so many commands are pending.
pub(crate) fn refusal_of_write(off: u64, len: u64, pending: u64) -> Option<Refusal>
    ensures value { result ≡ first_some
        (no_align (off ∷ []) len ∷ no_far ((off + len) ∷ []) ∷ refuse (nat_lt longest_extent len) why.Far
        ∷ refuse (nat_le most_pending pending) why.TooMany ∷ []) }
    ensures writable { IfNone result (IsWritable off len) }
    ensures few { IfNone result (pending < 65536) }
{
    if !is_whole(off, len) {
        Some(Refusal::Align)
    } else if !is_near(off, len) {
        Some(Refusal::Far)
    } else if pending >= MOST_PENDING {
        Some(Refusal::TooMany)
    } else {
        None
    }
}

/// Why a range of a file of this size may not be cloned, all else being there, where so many commands are pending.
pub(crate) fn refusal_of_clone(
    size: u64,
    off: u64,
    len: u64,
    to_off: u64,
    overlap: bool,
    pending: u64,
) -> Option<Refusal>
    ensures value { result ≡ first_some
        (no_align (off ∷ to_off ∷ []) len ∷ no_far ((off + len) ∷ (to_off + len) ∷ []) ∷ refuse (nat_lt size (off +
        len)) why.Source
        ∷ refuse overlap why.Overlap ∷ refuse (nat_le most_pending pending) why.TooMany ∷ []) }
    ensures clonable { IfNone result (IsClonable off len to_off) }
    ensures few { IfNone result (pending < 65536) }
{
    if !are_whole(off, to_off, len) {
        Some(Refusal::Align)
    } else if !are_near(off, to_off, len) {
        Some(Refusal::Far)
    } else if size < off + len {
        Some(Refusal::Source)
    } else if overlap {
        Some(Refusal::Overlap)
    } else if pending >= MOST_PENDING {
        Some(Refusal::TooMany)
    } else {
        None
    }
}

/// Whether two ranges of one length are in the same file and share a byte.
pub(crate) fn do_overlap(
    sub: RootId,
    ino: Ino,
    off: u64,
    to_sub: RootId,
    to_ino: Ino,
    to_off: u64,
    len: u64,
) -> bool
    ensures { result ≡ ((sub == to_sub) && (ino == to_ino) && share_a_byte off to_off len) }
{
    sub == to_sub && ino == to_ino && do_meet(off, to_off, len)
}

// Whether two ranges of one length share a byte.
fn do_meet(off: u64, to_off: u64, len: u64) -> bool
    ensures { result ≡ share_a_byte off to_off len }
{
    off.abs_diff(to_off) < len
}

// Whether a range is of whole sectors, one at least.
fn is_whole(off: u64, len: u64) -> bool
    ensures { result ≡ (is_aligned off && is_aligned len && nat_lt 0 len) }
{
    off % SECTOR == 0 && len % SECTOR == 0 && len > 0
}

// Whether two ranges of one length are of whole sectors, one at least.
fn are_whole(off: u64, to_off: u64, len: u64) -> bool
    ensures { result ≡ (is_aligned off && is_aligned to_off && is_aligned len && nat_lt 0 len) }
{
    off % SECTOR == 0 && to_off % SECTOR == 0 && len % SECTOR == 0 && len > 0
}

// Whether a range ends by the largest size, and is no longer than an extent may be.
fn is_near(off: u64, len: u64) -> bool
    ensures { result ≡ (nat_le (off + len) largest_size && nat_le len longest_extent) }
{
    len <= LONGEST_EXTENT && off <= LARGEST_SIZE - len
}

// Whether two ranges of one length end by the largest size.
fn are_near(off: u64, to_off: u64, len: u64) -> bool
    ensures { result ≡ (nat_le (off + len) largest_size && nat_le (to_off + len) largest_size) }
{
    len <= LARGEST_SIZE && off <= LARGEST_SIZE - len && to_off <= LARGEST_SIZE - len
}
