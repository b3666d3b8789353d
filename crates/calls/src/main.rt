//! Makes the calls of libraries that the files of the folder where it runs tell, and prints those that are answered
//! otherwise than their lines want.
#![tactic(auto)]

mod cow;
mod edit;
mod files;
mod hier;
mod kept;
mod limits;
mod nodes;
mod quota;
mod shape;
mod space;

use crate::kept::StructureCalls;
use anyhow::Result;
use call_lines::make_all;
use std::process::ExitCode;

/// The files, each of the calls of one library.
const FILES: [&str; 8] = [
    "shape", "edit", "files", "space", "cow", "hier", "limits", "quota",
];

fn main(rt: HostRuntime) -> Result<ExitCode> {
    make_all::<StructureCalls, _>(&rt, &FILES)
}
