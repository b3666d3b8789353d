//! Makes the calls of the libraries of formats and of lines that the files of the folder where it runs tell, and prints
//! those that are answered otherwise than their lines want.
#![tactic(auto)]

mod bytes;
mod checksums;
mod commands;
mod generator;
mod items;
mod kept;
mod nodes;
mod numbers;
mod superblocks;
mod words;

use crate::kept::FormatCalls;
use anyhow::Result;
use call_lines::make_all;
use std::process::ExitCode;

/// The files, each of the calls of one library, or of a part of it.
const FILES: [&str; 8] = [
    "numbers",
    "checksums",
    "items",
    "superblocks",
    "nodes",
    "words",
    "commands",
    "generator",
];

fn main(rt: HostRuntime) -> Result<ExitCode> {
    make_all::<FormatCalls, _>(&rt, &FILES)
}
