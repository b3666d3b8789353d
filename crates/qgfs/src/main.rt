//! The accounting engine of Btrfs quota groups: `qgfs IMAGE mkfs NODESIZE SLOTS SECTORS` makes a fresh image, `qgfs
//! IMAGE run` answers the lines of its input over one, `qgfs IMAGE check` tells what one is, and `qgfs IMAGE gen SEED
//! COUNT` answers lines that are drawn.
//!
//! The first word is the path of the image, a file that is made where there is none. The other words, standard input
//! and standard output go to `qg_program::run_program`, and the process ends with its status.
#![tactic(auto)]

use qg_disk::FileDisk;
use qg_edge::{StdSink, StdSource};
use qg_program::{Status, run_program};
use std::env::Env;
use std::fs::{Files, OpenFile, OpenOptions};
use std::io::ErrorKind;
use std::process::ExitCode;
use std::{env, io};

fn main(rt: HostRuntime) -> ExitCode {
    let status = match command_line(&rt) {
        Err(status) => status,
        Ok(line) => match open_image(&rt, line.path.as_str()) {
            Err(_) => Status::Disk,
            Ok(mut disk) => {
                let mut source = StdSource::new(rt.stdin());
                let mut sink = StdSink::new(rt.stdout());
                run_program(rt.alloc(), &line.words, &mut disk, &mut source, &mut sink)
            }
        },
    };
    ExitCode::from(status.code())
}

/// A path, and the words behind it.
#[derive(Drop)]
struct CommandLine {
    path: String,
    words: Vec<String>,
}

/// The words of the command line, without the program's name.
fn command_line(rt: &(impl Env + AllocGlobal)) -> Result<CommandLine, Status> {
    let mut args = env::args(rt).map_err(|error| match error.kind() {
        ErrorKind::OutOfMemory => Status::NoMemory,
        _ => Status::Words,
    })?;
    args.next();
    let path = args.next().ok_or(Status::Words)?;
    let mut words = Vec::new(rt.alloc());
    for word in args {
        words.push(word).map_err(|_| Status::NoMemory)?;
    }
    Ok(CommandLine { path, words })
}

/// The image as a disk: the file at a path, made where there is none, with its length.
fn open_image<R: Files>(rt: &R, path: &str) -> io::Result<FileDisk<R::File>> {
    let file = OpenOptions::new()
        .read(true)
        .write(true)
        .create(true)
        .open(rt, path)?;
    let len = file.metadata()?.len();
    Ok(FileDisk::new(file, len))
}
