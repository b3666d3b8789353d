// What a record tells.
ghost use Rattle.std.specs.Prelude.{◌≡◌, ◌<◌, false, length, slice_get, IfSome, MatchOption};
ghost use Rattle.std.specs.Option.{option_and_then};
ghost use Rattle.qg_tree_items.specs.Owed.{is_record, node_flags};
ghost use Rattle.qg_extents.specs.Reading.{IsHeadOf};
ghost use Rattle.qg_extents.specs.BookRecords.{is_sound_record, the_record};

use qg_num::Generation;
use qg_refs::What;
use qg_tree_items::image::ExtentPart;

/// What a record tells (on-disk format, EXTENT_ITEM and METADATA_ITEM).
#[derive(Clone, Copy)]
pub struct Head {
    /// What is known of the node or the data extent.
    pub what: What,
    /// A node's full mark (on-disk format, FULL_BACKREF).
    pub full: bool,
    /// The sum of the counts of the references to it.
    pub refs: u64,
}

/// The index of the only record among parts.
pub(crate) fn only_record(here: &[ExtentPart]) -> Option<usize>
    ensures bound { IfSome result (λ index. index < length here.now) }
    ensures only { option_and_then (slice_get here.now) result ≡ the_record here.now }
{
    let mut only = None;
    for (index, part) in here.iter().enumerate() {
        if is_record(part) {
            if only.is_some() {
                return None;
            }
            only = Some(index);
        }
    }
    only
}

/// Whether a part is a record.
pub fn is_record(part: &ExtentPart) -> bool
    ensures { result ≡ is_record part.now }
{
    match part {
        ExtentPart::DataRecord { .. } => true,
        ExtentPart::NodeRecord { .. } => true,
        ExtentPart::Referenced { .. } => false,
    }
}

/// What a record tells, if it is a sound one. A node has so many bytes.
pub fn head_of(nodesize: u32, part: &ExtentPart) -> Option<Head>
    ensures { MatchOption result (is_sound_record part.now ≡ false) (IsHeadOf nodesize part.now) }
{
    match part {
        ExtentPart::DataRecord { bytes, extent, .. } => {
            if extent.flags != 1 {
                return None;
            }
            Some(make_head(*bytes, None, extent.generation, false, extent.refs))
        }
        ExtentPart::NodeRecord { level, extent, .. } => {
            let full = extent.flags == 2 + 256;
            if extent.flags != 2 && !full || *level >= 256 {
                return None;
            }
            Some(make_head(
                nodesize as u64,
                Some(*level as u8),
                extent.generation,
                full,
                extent.refs,
            ))
        }
        ExtentPart::Referenced { .. } => None,
    }
}

fn make_head(bytes: u64, level: Option<u8>, generation: Generation, full: bool, refs: u64) -> Head
    ensures { result ≡ record {
      what = record { bytes = bytes; level = level; generation = generation };
      full = full;
      refs = refs;
    } }
{
    let what = What {
        bytes,
        level,
        generation,
    };
    Head { what, full, refs }
}
