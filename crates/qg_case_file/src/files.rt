// The files of cases in the folder where a program runs.
use anyhow::{Context, Result};
use std::fs;
use std::rt::Files;

/// How the name of a file of cases ends.
const ENDING: &str = ".case";

/// The names of the files of cases in the folder, without the ending, in order.
pub fn case_names<R: Files + AllocGlobal + Clone + Drop>(rt: &R) -> Result<Vec<String>> {
    let mut names = Vec::new(rt.alloc());
    for entry in fs::read_dir(rt, ".")? {
        let entry = entry?;
        if let Some(name) = entry.file_name().strip_suffix(ENDING) {
            names.push(String::from_str(rt.alloc(), name)?)?;
        }
    }
    names.sort()?;
    Ok(names)
}

/// What the file of a name says.
pub fn case_text<R: Files + AllocGlobal>(rt: &R, name: &str) -> Result<String> {
    let path = format!(in rt.alloc(); "{name}{ENDING}")?;
    fs::read_to_string(rt, path.as_str()).context(format_args!("{path}"))
}
