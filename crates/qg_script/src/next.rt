// The next line of a source.
ghost use Rattle.std.specs.Prelude.{◌≡◌, ◌≢◌, length, take, Err, IfOk, IfSome, IfNone, IsOkAnd, IsSomeAnd, OnErr};
ghost use Rattle.std.specs.Borrow.{sem};
ghost use Rattle.std.specs.Io.BufRead.{Rests};
ghost use Rattle.std.specs.List.{AllWithin};
ghost use Rattle.qg_device.specs.Cause.{HasCause};
ghost use Rattle.qg_script.specs.Feeding.{handed_out, IsTooLong, IsFirstNewline, HoldsLine, HandsOutHeld};
ghost use Rattle.qg_script.specs.Lines.{pending, TakesLine, IsOver};
ghost use Rattle.qg_script.specs.ReadLine.{EndsWithin, HoldsNoLine, ReadsLine, TakesWithin};
ghost use Rattle.qg_script.specs.contracts.feed.Feed.{the_row};

use crate::{Feed, Line, LineFault};
use qg_edge::Source;

// The first newline from a place on.
fn newline_from(bytes: &[u8], from: usize) -> Option<usize>
    ensures found { IfSome result (λ place. IsFirstNewline bytes.now from place) }
    ensures none { IfNone result (AllWithin (λ byte. byte ≢ 10) bytes.now from (length bytes.now)) }
{
    for place in from..bytes.len() {
        if bytes[place] == b'\n' {
            return Some(place);
        }
    }
    None
}

// Where the next line ends in what the feed then holds: at its first newline, or at the end of it; `None` exactly where
// nothing is pending.
fn line_end<S: Source>(feed: &mut Feed, source: &mut S) -> Result<Option<usize>, LineFault>
    ensures ends { IfOk result (λ found. IfSome found (EndsWithin feed.old feed.new)) }
    ensures line { IfOk result (λ found. IfSome found (λ end. TakesLine
        (pending feed.old (S.bytes_left source.old)) (pending (handed_out feed.new end) (S.bytes_left source.new))
        (take end feed.new.rest))) }
    ensures over { IfOk result (λ found. IfNone found (IsOver
        (pending feed.old (S.bytes_left source.old)) (pending feed.new (S.bytes_left source.new)) feed.new.rest)) }
    ensures err { OnErr result
        (pending feed.new (S.bytes_left source.new) ≡ pending feed.old (S.bytes_left source.old)) }
    ensures none_held { HoldsNoLine result feed.new }
    ensures past { IsTooLong feed.old → (result ≡ Err LineFault.TooLong) × (feed.new ≡ feed.old) }
    ensures cause { HasCause LineFault.Source (S.faults source.old) (S.faults source.new) result }
    ensures held { HoldsLine feed.old → IsOkAnd result (λ found. IsSomeAnd found (λ end.
        HandsOutHeld feed.old (handed_out feed.new end) (take end feed.new.rest))) }
    ensures not_asked { HoldsLine feed.old → source.new ≡ source.old }
    ensures taken { TakesWithin feed.old feed.new (S.bytes_left source.old) (S.bytes_left source.new) }
{
    let mut scanned = 0;
    loop {
        let bytes = feed.within_limit();
        if let Some(end) = newline_from(bytes, scanned) {
            return Ok(Some(end));
        }
        scanned = bytes.len();
        if feed.is_past() {
            return Err(LineFault::TooLong);
        }
        if feed.fill(source)? == 0 {
            if scanned == 0 {
                return Ok(None);
            }
            return Ok(Some(scanned));
        }
    }
}

/// The next line of what is pending, which is what the feed holds and then what the source has left; `None` exactly
/// where that is nothing (this project's own). A line that does not end within the first 67108864 bytes of the script
/// is too long. The feed lends the line, and takes nothing more before it is let go.
pub fn next_line<'a, S: Source>(
    feed: &'a mut Feed,
    source: &mut S,
) -> Result<Option<Line<'a>>, LineFault>
    ensures* reads { sem 𝓛 (Rests the_row feed.entry (λ left.
        ReadsLine result feed.entry.now left (S.bytes_left source.old) (S.bytes_left source.new))) }
    ensures cause { HasCause LineFault.Source (S.faults source.old) (S.faults source.new) result }

    // A line that is held whole is handed out before the source is asked for more.
    ensures not_asked { HoldsLine feed.old → source.new ≡ source.old }
{
    match line_end(feed, source)? {
        Some(end) => Ok(Some(Line::new(feed.hand_out(end)))),
        None => Ok(None),
    }
}
