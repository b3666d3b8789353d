// The lines of a part.
use crate::lines::{add_piece, add_piece_of_crashes, add_to_run};
use crate::numbers::{number_of, two_numbers_of};
use crate::steps::step_of;
use crate::text::{first_word, line_of, without_comment, words_of};
use crate::{CaseRun, Complaint, Part, Step};
use std::alloc::{AllocError, Global};

impl Part {
    // The run to which a line belongs.
    fn last_run(&mut self) -> Result<&mut CaseRun, Complaint> {
        match self.steps.last_mut() {
            Some((_, Step::Run(run))) => Ok(run),
            _ => Err(Complaint::NoRun),
        }
    }

    // Adds a line of input or of output.
    fn add_text(
        &mut self,
        alloc: Global,
        mark: &str,
        text: &str,
        times: u64,
    ) -> Result<(), Complaint> {
        match self.steps.last_mut() {
            Some((_, Step::Run(run))) => add_piece(alloc, run, mark, text, times),
            Some((_, Step::Crashes(crashes))) => {
                add_piece_of_crashes(alloc, crashes, mark, text, times)
            }
            _ => Err(Complaint::NoRun),
        }
    }

    // Adds a state of which the lines that follow are wanted.
    fn add_state(&mut self, alloc: Global) -> Result<(), Complaint> {
        match self.steps.last_mut() {
            Some((_, Step::Crashes(crashes))) => {
                crashes.states.push(Vec::new(alloc))?;
                Ok(())
            }
            _ => Err(Complaint::NoCrashes),
        }
    }

    // Adds a line so many times.
    fn add_repeated(&mut self, alloc: Global, text: &str) -> Result<(), Complaint> {
        let (count, line) = first_word(text);
        let (mark, text) = first_word(line);
        self.add_text(alloc, mark, text, number_of(count)?)
    }

    // Adds a step of a line.
    fn add_step(&mut self, number: u64, step: Step) -> Result<(), AllocError> {
        self.steps.push((number, step))?;
        Ok(())
    }

    // Adds an empty disk over which these words make an image.
    fn add_disk(&mut self, alloc: Global, number: u64, text: &str) -> Result<(), AllocError> {
        let mut run = CaseRun::new(alloc, words_of(alloc, text)?);
        run.wanted.put = line_of(alloc, "ok mkfs")?;
        self.add_step(number, Step::Empty)?;
        self.add_step(number, Step::Run(run))
    }

    // Adds what stands before the first step.
    fn add_head(&mut self, alloc: Global, word: &str, text: &str) -> Result<(), Complaint> {
        if !self.steps.is_empty() {
            return Err(Complaint::Late);
        }
        match word {
            "each" => self.each = Some(two_numbers_of(text)?),
            "after" => self.after = Some(String::from_str(alloc, text)?),
            _ => return Err(Complaint::Word),
        }
        Ok(())
    }

    // Adds a line that is no input or output.
    fn add_plain(&mut self, alloc: Global, number: u64, line: &str) -> Result<(), Complaint> {
        let (word, text) = first_word(line);
        match word {
            "" => {}
            "each" | "after" => self.add_head(alloc, word, text)?,
            "disk" => self.add_disk(alloc, number, text)?,
            "run" | "mkfs" => {
                let run = CaseRun::new(alloc, words_of(alloc, line)?);
                self.add_step(number, Step::Run(run))?;
            }
            "words" => {
                let run = CaseRun::new(alloc, words_of(alloc, text)?);
                self.add_step(number, Step::Run(run))?;
            }
            "no-words" => self.add_step(number, Step::Run(CaseRun::new(alloc, Vec::new(alloc))))?,
            "state" => self.add_state(alloc)?,
            "fail" | "stop" | "flip" | "status" | "calls" | "@" => {
                let run = self.last_run()?;
                add_to_run(alloc, run, word, text)?;
            }
            _ => self.add_step(number, step_of(alloc, word, text)?)?,
        }
        Ok(())
    }

    /// Adds a line, of this number in its file.
    pub(crate) fn add_line(
        &mut self,
        alloc: Global,
        number: u64,
        line: &str,
    ) -> Result<(), Complaint> {
        let (word, text) = first_word(line);
        match word {
            "<" | "<<" | ">" | ">>" => self.add_text(alloc, word, text, 1),
            "repeat" => self.add_repeated(alloc, text),
            _ => self.add_plain(alloc, number, without_comment(line)),
        }
    }
}
