// What a file has in a range, or behind its end, is cut out.
ghost use Rattle.std.specs.Prelude.{◌≡◌, ◌+◌, ◌<◌, ◌≤◌, ◌++◌, ◌∷◌, [], OnOk, OnErr, IsOk, length, take, drop};
ghost use Rattle.std.specs.Option.{option_to_list};
ghost use Rattle.qg_machine.specs.FileChange.{before, with_range};
ghost use Rattle.qg_files.specs.Apart.{AreApart};

use crate::part::{part_after, part_before};
use crate::search::{first_past, meeting};
use crate::splice::splice;
use qg_num::{NoMemory, Piece, Pieces};

/// Takes out what a file has in a range of bytes (this project's own). Rests keep naming their whole extents.
/// Where memory is refused, the list stays as it was; it takes some only where the list grows.
pub fn cut_range(pieces: &mut Pieces, from: u64, to: u64) -> Result<(), NoMemory>
    requires apart { AreApart pieces.old }
    requires order { from ≤ to }
    ensures ok { OnOk result (pieces.new ≡ with_range from to [] pieces.old) }
    ensures err { OnErr result (pieces.new ≡ pieces.old) }
    ensures grows { OnErr result (length pieces.old < length (with_range from to [] pieces.old)) }
    ensures apart { AreApart pieces.new }
{
    let (first, end) = meeting(pieces, from, to);
    if first == end {
        return Ok(());
    }
    let items = pieces.as_slice();
    let front = part_before(items[first], from);
    let rest = part_after(items[end - 1], to);
    replace(pieces, first, end, front, rest)
}

/// Cuts off what a file has from a size on, in bytes (truncate(2)). It takes no memory.
pub fn truncate(pieces: &mut Pieces, size: u64) -> Result<(), NoMemory>
    requires { AreApart pieces.old }
    ensures ok { IsOk result }
    ensures cut { pieces.new ≡ before size pieces.old }
    ensures apart { AreApart pieces.new }
{
    let first = first_past(pieces, size);
    let end = pieces.len();
    if first < end {
        let front = part_before(pieces.as_slice()[first], size);
        replace_by(pieces, first, end, front);
    }
    Ok(())
}

/// Puts what is left in front of a range, and behind it, in the place of the pieces of a range of indices.
fn replace(
    pieces: &mut Pieces,
    first: usize,
    end: usize,
    front: Option<Piece>,
    rest: Option<Piece>,
) -> Result<(), NoMemory>
    requires some { first < end }
    requires bound { end ≤ length pieces.old }
    ensures ok { OnOk result (pieces.new
        ≡ take first pieces.old ++ option_to_list front ++ option_to_list rest ++ drop end pieces.old) }
    ensures err { OnErr result (pieces.new ≡ pieces.old) }
    ensures grows { OnErr result (length pieces.old
        < length (take first pieces.old ++ option_to_list front ++ option_to_list rest ++ drop end pieces.old)) }
{
    match (front, rest) {
        (Some(front), Some(rest)) => return splice(pieces, first, end, &[front, rest]),
        (part, None) => replace_by(pieces, first, end, part),
        (None, part) => replace_by(pieces, first, end, part),
    }
    Ok(())
}

/// Puts a piece, or nothing, in the place of those of a range of indices.
fn replace_by(pieces: &mut Pieces, first: usize, end: usize, part: Option<Piece>)
    requires some { first < end }
    requires bound { end ≤ length pieces.old }
    ensures { pieces.new ≡ take first pieces.old ++ option_to_list part ++ drop end pieces.old }
{
    match part {
        Some(part) => {
            pieces.set(first, part);
            pieces.remove_range(first + 1, end);
        }
        None => pieces.remove_range(first, end),
    }
}
