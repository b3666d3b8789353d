// A file of cases is read.
use crate::{Case, CaseFault, Complaint, Part};
use std::alloc::Global;

/// The line that parts two parts.
const PARTING: &str = "---";

// Takes one more line.
fn add_line(
    alloc: Global,
    parts: &mut Vec<Part>,
    number: u64,
    line: &str,
) -> Result<(), Complaint> {
    if line == PARTING {
        parts.push(Part::new(alloc))?;
        return Ok(());
    }
    match parts.last_mut() {
        Some(part) => part.add_line(alloc, number, line),
        None => Ok(()),
    }
}

// A file without lines.
fn empty_case(alloc: Global, name: &str) -> Result<Case, Complaint> {
    let mut parts = Vec::new(alloc);
    parts.push(Part::new(alloc))?;
    Ok(Case {
        name: String::from_str(alloc, name)?,
        parts,
    })
}

/// The parts of a file; `Err` names the first line that is wrong.
pub fn read_case(alloc: Global, name: &str, text: &str) -> Result<Case, CaseFault> {
    let mut number = 0u64;
    let mut case = empty_case(alloc, name).map_err(|complaint| CaseFault { line: 0, complaint })?;
    for line in text.lines() {
        number = number.saturating_add(1);
        add_line(alloc, &mut case.parts, number, line).map_err(|complaint| CaseFault {
            line: number,
            complaint,
        })?;
    }
    Ok(case)
}
