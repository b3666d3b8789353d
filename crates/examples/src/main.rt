//! Runs the cases that lie in the files of the folder where it runs, or those of them that its file `case` lists: it
//! prints what came in place of what was wanted, and how many hold.
#![tactic(auto)]

use anyhow::{Context, Result, anyhow};
use qg_case_file::{Case, case_names, case_text, read_case};
use qg_cases::{CaseDisk, Cases, Program, Report, judge_case};
use qg_edge::{MemSink, MemSource};
use qg_program::run_program;
use std::alloc::Global;
use std::fs;
use std::process::ExitCode;
use std::rt::Files;

/// The file that lists the cases to be run, a name a line. Where there is none, all are.
const LIST: &str = "case";

/// The program itself.
#[derive(Drop)]
struct Whole {
    alloc: Global,
}

impl Program for Whole {
    fn call(
        &self,
        words: &Vec<String>,
        disk: &mut CaseDisk,
        source: &mut MemSource,
        sink: &mut MemSink,
    ) -> u8 {
        run_program(self.alloc, words, disk, source, sink).code()
    }
}

// Reads the file of a name.
fn read_file<R: Files + AllocGlobal>(rt: &R, name: &str) -> Result<Case> {
    let text = case_text(rt, name)?;
    read_case(rt.alloc(), name, text.as_str()).context(format_args!("{name}"))
}

// Reads all files.
fn read_files<R: Files + AllocGlobal + Clone + Drop>(rt: &R) -> Result<Cases> {
    let mut cases = Cases::new(rt.alloc());
    for name in case_names(rt)?.iter() {
        let case = read_file(rt, name.as_str())?;
        cases.add(case).map_err(|_| anyhow!("memory was refused"))?;
    }
    Ok(cases)
}

// Whether a case of this name is to be run.
fn is_asked(list: &Option<String>, name: &str) -> bool {
    match list {
        Some(list) => list.lines().any(|line| line == name),
        None => true,
    }
}

// Runs the cases that are asked for.
fn judge(alloc: Global, cases: &Cases, list: &Option<String>) -> Result<Report> {
    let mut report = Report::new(alloc);
    let program = Whole { alloc };
    for case in cases
        .all()
        .iter()
        .filter(|case| is_asked(list, case.name.as_str()))
    {
        judge_case(alloc, &program, cases, case, &mut report).map_err(|_| anyhow!(
            "memory was refused"
        ))?;
    }
    Ok(report)
}

fn main(rt: HostRuntime) -> Result<ExitCode> {
    let cases = read_files(&rt)?;
    let list = fs::read_to_string(&rt, LIST).ok();
    let report = judge(rt.alloc(), &cases, &list)?;
    print!(rt; "{}", report.text())?;
    let held = report.held();
    println!(rt; "{held} hold")?;
    if report.failed() == 0 {
        return Ok(ExitCode::SUCCESS);
    }
    let failed = report.failed();
    println!(rt; "{failed} fail")?;
    Ok(ExitCode::FAILURE)
}
