// What a file has in a range, as a list of its own.
ghost use Rattle.std.specs.Prelude.{◌≡◌, ◌≤◌, IfOk};
ghost use Rattle.qg_machine.specs.FileChange.{within};
ghost use Rattle.qg_files.specs.Apart.{AreApart};

use crate::part::part_within;
use crate::search::meeting;
use qg_num::{NoMemory, Pieces};
use std::alloc::Global;

/// What pieces have in a range of bytes, at the same positions (this project's own).
pub fn take_range(alloc: Global, pieces: &Pieces, from: u64, to: u64) -> Result<Pieces, NoMemory>
    requires apart { AreApart pieces.now }
    requires order { from ≤ to }
    ensures value { IfOk result (λ taken. taken ≡ within from to pieces.now) }
    ensures apart { IfOk result (λ taken. AreApart taken) }
{
    let (first, end) = meeting(pieces, from, to);
    let mut taken = Pieces::new(alloc);
    for piece in &pieces.as_slice()[first..end] {
        if let Some(part) = part_within(*piece, from, to) {
            taken.push(part)?;
        }
    }
    Ok(taken)
}
