// Pieces are put in the place of what a file has in a range.
ghost use Rattle.std.specs.Prelude.{◌≡◌, ◌≤◌, ◌++◌, IfOk, OnOk, OnErr};
ghost use Rattle.std.specs.List.{All};
ghost use Rattle.std.specs.Option.{option_to_list};
ghost use Rattle.qg_image.specs.FilesOf.{piece_end};
ghost use Rattle.qg_machine.specs.FileChange.{with_range};
ghost use Rattle.qg_files.specs.Apart.{AreApart, AreApartFrom};

use crate::part::{part_after, part_before};
use crate::search::meeting;
use crate::splice::splice;
use crate::split::push_part;
use qg_num::{NoMemory, Piece, Pieces};
use std::alloc::Global;

/// Puts pieces in the place of what a file has in a range of bytes (this project's own). Rests keep naming their whole
/// extents. Where memory is refused, the list stays as it was.
pub fn replace_range(
    pieces: &mut Pieces,
    from: u64,
    to: u64,
    given: &[Piece],
) -> Result<(), NoMemory>
    requires apart { AreApart pieces.old }
    requires order { from ≤ to }
    requires given { AreApartFrom from given.now }
    requires ends { All (λ piece. piece_end piece ≤ to) given.now }
    ensures ok { OnOk result (pieces.new ≡ with_range from to given.now pieces.old) }
    ensures err { OnErr result (pieces.new ≡ pieces.old) }
    ensures apart { AreApart pieces.new }
{
    let (first, end) = meeting(pieces, from, to);
    if first == end {
        pieces.insert_slice(first, given)?;
        return Ok(());
    }
    let items = pieces.as_slice();
    let front = part_before(items[first], from);
    let rest = part_after(items[end - 1], to);
    let put = with_rests(pieces.allocator(), front, given, rest)?;
    splice(pieces, first, end, put.as_slice())
}

/// Given pieces as a list of their own, between what rests in front of them and behind.
fn with_rests(
    alloc: Global,
    front: Option<Piece>,
    given: &[Piece],
    rest: Option<Piece>,
) -> Result<Pieces, NoMemory>
    ensures { IfOk result (λ items. items ≡ option_to_list front ++ given.now ++ option_to_list rest) }
{
    let mut items = Pieces::with_capacity(alloc, given.len() + 2)?;
    push_part(&mut items, front)?;
    let index = items.len();
    items.insert_slice(index, given)?;
    push_part(&mut items, rest)?;
    Ok(items)
}
