// Calls on the generator.
use crate::checksums::told_checksum;
use crate::commands::told_command;
use call_lines::{Fault, numbers_of, told};
use qg_crc32c::Running;
use qg_generator::Generator;
use std::alloc::Global;

/// The next line, or `none`.
fn told_next(alloc: Global, generator: &mut Generator) -> Result<String, Fault> {
    match generator.next() {
        Some(command) => told_command(alloc, &command),
        None => told(alloc, "none"),
    }
}

/// The checksum of so many lines as they are told, a newline behind each.
fn checksum_of_lines(alloc: Global, generator: &mut Generator, count: u64) -> Result<u32, Fault> {
    let mut running = Running::new();
    for _ in 0..count {
        running.update(told_next(alloc, generator)?.as_bytes());
        running.update(b"\n");
    }
    Ok(running.finish())
}

/// Makes a call.
pub(crate) fn answer(
    alloc: Global,
    generator: &mut Generator,
    verb: &str,
    text: &str,
) -> Result<String, Fault> {
    match (verb, numbers_of(alloc, text)?.as_slice()) {
        ("begin", [seed, count]) => {
            *generator = Generator::new(alloc, *seed, *count);
            told(alloc, "done")
        }
        ("next", []) => told_next(alloc, generator),
        ("checksum", [count]) => told_checksum(alloc, checksum_of_lines(alloc, generator, *count)?),
        _ => Err(Fault::Call),
    }
}
