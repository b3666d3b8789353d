//! How long parts of this repository take: `bench WORD time` prints times, and `bench WORD` what a little of the same
//! work gives. Without a word it does a little of each.
#![tactic(auto)]

mod crc32c;
mod nodes;
mod numbers;
mod order;
mod owed;
mod refs;
mod report;
mod tree;

use crate::report::Report;
use std::fs::Files;
use std::rt::Clock;
use std::{env, io};

/// The words, in the order in which all are done.
const WORDS: [&str; 5] = ["crc32c", "nodes", "owed", "refs", "tree"];

fn main(rt: HostRuntime) -> io::Result<()> {
    let mut args = env::args(&rt)?;
    args.next();
    let Some(word) = args.next() else {
        for word in WORDS {
            measure(&rt, word, Report::new(false), None)?;
        }
        return Ok(());
    };
    let is_timed = args.next().is_some_and(|word| word.as_str() == "time");
    measure(&rt, word.as_str(), Report::new(is_timed), args.next())
}

/// Does the work of a word, which is reported. That of `tree` has a path behind its other words.
fn measure<R: Clock + Print + Files + AllocGlobal>(
    rt: &R,
    word: &str,
    report: Report,
    path: Option<String>,
) -> io::Result<()> {
    let alloc = rt.alloc();
    match word {
        "crc32c" => crc32c::measure(rt, alloc, report),
        "nodes" => nodes::measure(rt, alloc, report),
        "owed" => owed::measure(rt, alloc, report),
        "refs" => refs::measure(rt, alloc, report),
        "tree" => tree::measure(rt, alloc, report, path),
        _ => println!(rt; "the words are crc32c, nodes, owed, refs and tree"),
    }
}
