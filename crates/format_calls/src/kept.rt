// What the calls of a file are made on.
use crate::bytes::{changed, fresh, told_pieces};
use crate::{checksums, commands, generator, items, nodes, numbers, superblocks, words};
use call_lines::{Calls, Fault, first_word, numbers_of, told};
use qg_generator::Generator;
use qg_node::Node;
use std::alloc::Global;

/// What the calls of a file are made on: each has what the calls before it left.
#[derive(Drop)]
pub(crate) struct FormatCalls {
    bytes: Vec<u8>,
    node: Node,
    generator: Generator,
}

/// Makes a call on bytes that all files have: `bytes` begins them anew, `put` changes them, `told` tells some of them.
fn answer_bytes(
    alloc: Global,
    bytes: &mut Vec<u8>,
    verb: &str,
    text: &str,
) -> Result<String, Fault> {
    match verb {
        "bytes" => *bytes = fresh(alloc, text)?,
        "put" => *bytes = changed(alloc, bytes, text)?,
        _ => match numbers_of(alloc, text)?.as_slice() {
            [from, to] => return told_pieces(alloc, bytes, *from, *to),
            _ => return Err(Fault::Call),
        },
    }
    told(alloc, "done")
}

impl Calls for FormatCalls {
    fn begin(alloc: Global) -> Result<FormatCalls, Fault> {
        Ok(FormatCalls {
            bytes: Vec::new(alloc),
            node: nodes::empty(alloc),
            generator: Generator::new(alloc, 0, 0),
        })
    }

    fn answer(&mut self, alloc: Global, name: &str, call: &str) -> Result<String, Fault> {
        let (verb, text) = first_word(call);
        if matches!(verb, "bytes" | "put" | "told") {
            return answer_bytes(alloc, &mut self.bytes, verb, text);
        }
        match name {
            "numbers" => numbers::answer(alloc, &mut self.bytes, verb, text),
            "checksums" => checksums::answer(alloc, &mut self.bytes, verb, text),
            "items" => items::answer(alloc, &self.bytes, verb, text),
            "superblocks" => superblocks::answer(alloc, &mut self.bytes, verb, text),
            "nodes" => nodes::answer(alloc, &mut self.bytes, &mut self.node, verb, text),
            "words" => words::answer(alloc, verb, text),
            "commands" => commands::answer(alloc, verb, text),
            "generator" => generator::answer(alloc, &mut self.generator, verb, text),
            _ => Err(Fault::Call),
        }
    }
}
