// What came in place of what was wanted.
use qg_case_file::NoMemory;
use std::alloc::{AllocError, Global};

/// What came in place of what was wanted, as lines (this project's own).
#[derive(Drop)]
pub struct Report {
    text: String,
    // Where the next lines come from: a file, and a line of it.
    name: String,
    line: u64,
    has_failed: bool,
    held: u64,
    failed: u64,
}

impl Report {
    /// Nothing was judged.
    pub fn new(alloc: Global) -> Report {
        Report {
            text: String::new(alloc),
            name: String::new(alloc),
            line: 0,
            has_failed: false,
            held: 0,
            failed: 0,
        }
    }

    /// The lines.
    pub fn text(&self) -> &str {
        self.text.as_str()
    }

    /// How many parts hold, a part that is run for some numbers once for each.
    pub fn held(&self) -> u64 {
        self.held
    }

    /// How many do not.
    pub fn failed(&self) -> u64 {
        self.failed
    }

    /// A part of a file is judged next.
    pub(crate) fn begin(&mut self, name: &str) -> Result<(), NoMemory> {
        self.name.clear();
        self.name.push_str(name)?;
        self.line = 0;
        self.has_failed = false;
        Ok(())
    }

    /// The step of this line is judged next.
    pub(crate) fn at(&mut self, line: u64) {
        self.line = line;
    }

    /// The part was judged.
    pub(crate) fn end(&mut self) {
        if self.has_failed {
            self.failed = self.failed.saturating_add(1);
        } else {
            self.held = self.held.saturating_add(1);
        }
    }

    /// Tells that something failed.
    pub fn tell(&mut self, what: &str) -> Result<(), AllocError> {
        let (name, line) = (&self.name, self.line);
        writeln!(self.text, "{name}, line {line}: {what}")?;
        self.has_failed = true;
        Ok(())
    }

    /// Tells what was wanted and what came, where they differ.
    pub(crate) fn compare(
        &mut self,
        alloc: Global,
        what: &str,
        wanted: &str,
        came: &str,
    ) -> Result<(), AllocError> {
        if wanted == came {
            return Ok(());
        }
        let text = format!(in alloc; "{what}: wanted {wanted}, came {came}")?;
        self.tell(text.as_str())
    }
}
