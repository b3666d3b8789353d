// Items are put in the place of others of a list. Those behind are moved once at most.
ghost use Rattle.std.specs.Prelude.{◌≡◌, ◌+◌, ◌-◌, ◌<◌, ◌≤◌, ◌++◌, OnOk, OnErr, length, take, drop};

use qg_num::{NoMemory, Piece, Pieces};

/// Puts items in the place of those of a range of indices. It takes memory only where there are more of them.
pub(crate) fn splice(
    pieces: &mut Pieces,
    first: usize,
    end: usize,
    items: &[Piece],
) -> Result<(), NoMemory>
    requires order { first ≤ end }
    requires bound { end ≤ length pieces.old }
    ensures ok { OnOk result (pieces.new ≡ take first pieces.old ++ items.now ++ drop end pieces.old) }
    ensures err { OnErr result (pieces.new ≡ pieces.old) }
    ensures grows { OnErr result (end - first < length items.now) }
{
    let room = end - first;
    if room < items.len() {
        pieces.insert_slice(end, &items[room..])?;
        write_over(pieces, first, end, &items[..room]);
    } else {
        let last = first + items.len();
        pieces.remove_range(last, end);
        write_over(pieces, first, last, items);
    }
    Ok(())
}

/// Puts items in the place of as many, from one index up to another.
fn write_over(pieces: &mut Pieces, first: usize, end: usize, items: &[Piece])
    requires many { first + length items.now ≡ end }
    requires bound { end ≤ length pieces.old }
    ensures { pieces.new ≡ take first pieces.old ++ items.now ++ drop end pieces.old }
{
    for index in first..end {
        pieces.set(index, items[index - first]);
    }
}
