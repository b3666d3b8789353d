// Calls on decimals and on the words of a command line.
use call_lines::{Fault, told, told_number};
use qg_super::Sizes;
use qg_words::{Form, decimal_of, read_words};
use std::alloc::Global;

/// What the words of a text ask for; where it is empty there is one word that is empty.
fn told_form(alloc: Global, text: &str) -> Result<String, Fault> {
    let mut words = Vec::new(alloc);
    for word in text.split(' ') {
        words.push(word.to_string(alloc)?)?;
    }
    match read_words(alloc, &words)? {
        None => told(alloc, "none"),
        Some(Form::Run) => told(alloc, "run"),
        Some(Form::Check) => told(alloc, "check"),
        Some(Form::Generate { seed, count }) => Ok(format!(in alloc; "gen {seed} {count}")?),
        Some(
            Form::Mkfs(
                Sizes {
                    nodesize,
                    slots,
                    sectors,
                },
            ),
        ) => { Ok(format!(in alloc; "mkfs {nodesize} {slots} {sectors}")?) }
    }
}

/// Makes a call.
pub(crate) fn answer(alloc: Global, verb: &str, text: &str) -> Result<String, Fault> {
    match verb {
        "decimal" => told_number(alloc, decimal_of(text)),
        "words" => told_form(alloc, text),
        _ => Err(Fault::Call),
    }
}
