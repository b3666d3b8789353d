// The edits between two lists of pieces of one file.
ghost use Rattle.std.specs.Prelude.{◌≡◌, ◌+◌, ◌≤◌, IfOk, length};
ghost use Rattle.qg_files.specs.Apart.{AreApart};
ghost use Rattle.qg_file_edits.specs.Steps.{AreSteps, first_between, first_of};

use crate::Step;
use qg_num::{NoMemory, Piece, Pieces};

/// The edits by which pieces of a file are exchanged for others, ascending by position. A piece that comes where one
/// goes replaces it (this project's own).
pub fn steps_between(gone: &Pieces, put: &Pieces) -> Result<Vec<Step>, NoMemory>
    requires gone { AreApart gone.now }
    requires put { AreApart put.now }
    ensures value { IfOk result (λ steps. AreSteps gone.now put.now steps.items) }
    ensures few { IfOk result (λ steps. length steps.items ≤ length gone.now + length put.now) }
{
    let mut steps = Vec::new(gone.allocator());
    let mut gone_left = gone.as_slice();
    let mut put_left = put.as_slice();
    while let Some(step) = first_step(gone_left, put_left) {
        match step {
            Step::Remove(_) => gone_left = &gone_left[1..],
            Step::Insert(_) => put_left = &put_left[1..],
            Step::Replace(_) => {
                gone_left = &gone_left[1..];
                put_left = &put_left[1..];
            }
        }
        steps.push(step)?;
    }
    Ok(steps)
}

/// The edit at the least position of two lists of pieces, or none where both are empty.
fn first_step(gone: &[Piece], put: &[Piece]) -> Option<Step>
    ensures { result ≡ first_between gone.now put.now }
{
    match (gone.first(), put.first()) {
        (None, None) => None,
        (Some(gone), None) => Some(Step::Remove(gone.position)),
        (None, Some(put)) => Some(Step::Insert(*put)),
        (Some(gone), Some(put)) => Some(step_of(gone, put)),
    }
}

/// The first edit of two that begin with these pieces.
fn step_of(gone: &Piece, put: &Piece) -> Step
    ensures { result ≡ first_of gone.now put.now }
{
    if gone.position < put.position {
        Step::Remove(gone.position)
    } else if put.position < gone.position {
        Step::Insert(*put)
    } else {
        Step::Replace(*put)
    }
}
