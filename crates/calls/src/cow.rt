// Calls of which references change where a node that subvolume 5 made is copied or left.
use call_lines::{Fault, told};
use qg_cow_refs::{Edits, Leaving, edits, leaving};
use qg_num::RootId;
use std::alloc::Global;

/// The case of a copy.
fn word_of_copy(tree: u64, count: u64, full: bool) -> &'static str {
    match edits(count, full, RootId::new(5), RootId::new(tree)) {
        Edits::ShareOld => "share-old",
        Edits::AddKeyed => "add-keyed",
        Edits::TurnKeyed => "turn-keyed",
        Edits::TakeOver => "take-over",
    }
}

/// The case of a node that is left.
fn word_of_leaving(tree: u64, count: u64, full: bool) -> &'static str {
    match leaving(count, full, RootId::new(5), RootId::new(tree)) {
        Leaving::Goes => "goes",
        Leaving::TurnsFull => "turns-full",
        Leaving::Stays => "stays",
    }
}

/// Makes a call.
pub(crate) fn answer(alloc: Global, verb: &str, numbers: &[u64]) -> Result<String, Fault> {
    let [tree, count] = numbers else {
        return Err(Fault::Call);
    };
    match verb {
        "copy" => told(alloc, word_of_copy(*tree, *count, false)),
        "copy-full" => told(alloc, word_of_copy(*tree, *count, true)),
        "leave" => told(alloc, word_of_leaving(*tree, *count, false)),
        "leave-full" => told(alloc, word_of_leaving(*tree, *count, true)),
        _ => Err(Fault::Call),
    }
}
