//! Makes the calls on images and on books of references that the files of the folder where it runs tell, and prints
//! those that are answered otherwise than their lines want.
#![tactic(auto)]

mod books;
mod image;
mod kept;
mod refs;

use crate::kept::ImageCalls;
use anyhow::Result;
use call_lines::make_all;
use std::process::ExitCode;

/// The files.
const FILES: [&str; 4] = ["refs", "books", "reached", "references"];

fn main(rt: HostRuntime) -> Result<ExitCode> {
    make_all::<ImageCalls, _>(&rt, &FILES)
}
