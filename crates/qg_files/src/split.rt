// What a command takes out of a file, and what rests of it.
ghost use Rattle.std.specs.Prelude.{◌≡◌, ◌<◌, ◌≤◌, ◌++◌, IfOk, OnOk, OnErr};
ghost use Rattle.std.specs.Option.{option_to_list};
ghost use Rattle.qg_files.specs.Apart.{AreApart};
ghost use Rattle.qg_files.specs.Split.{IsSplit};

use crate::part::{part_after, part_before};
use crate::search::meeting;
use qg_num::{NoMemory, Piece, Pieces};
use std::alloc::Global;

/// The pieces that a range of bytes meets, whole, and what rests of them outside the range (this project's own).
#[derive(Drop)]
pub struct Split {
    /// The pieces that the range meets, ascending.
    pub gone: Pieces,
    /// What the first of them has in front of the range, and the last one behind it.
    pub rests: Pieces,
}

/// What a range of bytes takes out of a file's pieces, whatever is put there. The file stays as it is.
pub fn split_range(alloc: Global, pieces: &Pieces, from: u64, to: u64) -> Result<Split, NoMemory>
    requires apart { AreApart pieces.now }
    requires order { from ≤ to }
    ensures { IfOk result (λ split. IsSplit from to pieces.now split.gone split.rests) }
{
    let (first, end) = meeting(pieces, from, to);
    let items = pieces.as_slice();
    let gone = Pieces::from_slice(alloc, &items[first..end])?;
    let mut rests = Pieces::new(alloc);
    if first == end {
        return Ok(Split { gone, rests });
    }
    push_part(&mut rests, part_before(items[first], from))?;
    push_part(&mut rests, part_after(items[end - 1], to))?;
    Ok(Split { gone, rests })
}

/// Puts a part at the end of a list, if there is one.
pub(crate) fn push_part(parts: &mut Pieces, part: Option<Piece>) -> Result<(), NoMemory>
    ensures ok { OnOk result (parts.new ≡ parts.old ++ option_to_list part) }
    ensures err { OnErr result (parts.new ≡ parts.old) }
{
    if let Some(part) = part {
        parts.push(part)?;
    }
    Ok(())
}
