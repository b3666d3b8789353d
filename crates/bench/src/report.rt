// How work is timed, and how what came out of it is printed.
use qg_num::BlockFault;
use std::io;
use std::io::ErrorKind;
use std::rt::Clock;
use std::time::Instant;

/// The error of a program in which a call failed.
pub(crate) fn failed<E: Drop>(_: E) -> io::Error {
    io::Error::from(ErrorKind::OutOfMemory)
}

/// What some work gives, and the microseconds that it takes.
pub(crate) fn timed<T: Drop, F: FnOnce() -> Result<T, BlockFault> + Drop>(
    rt: &impl Clock,
    work: F,
) -> io::Result<(T, u128)>
    requires { F.IsAlwaysCallable work }
{
    let start = Instant::now(rt)?;
    let gave = work().map_err(failed)?;
    let took = start.elapsed(rt)?.as_micros();
    Ok((gave, took))
}

/// What was done, what it gave, and the microseconds that it took.
pub(crate) type Row<'a> = (&'a str, u64, u128);

/// Whether times are printed, and what stands before each name.
#[derive(Clone, Copy)]
pub(crate) struct Report<'a> {
    pub is_timed: bool,
    prefix: &'a str,
}

impl<'a> Report<'a> {
    pub(crate) fn new(is_timed: bool) -> Report<'a> {
        Report {
            is_timed,
            prefix: "",
        }
    }

    /// The same with other words before each name.
    pub(crate) fn under<'b>(self, prefix: &'b str) -> Report<'b> {
        Report {
            is_timed: self.is_timed,
            prefix,
        }
    }

    /// How often the same work is done.
    pub(crate) fn rounds(self) -> u32 {
        if self.is_timed { 5 } else { 1 }
    }

    /// Prints rows: each on a line of its own with its time, or all on one line.
    pub(crate) fn print(self, rt: &impl Print, rows: &[Row]) -> io::Result<()> {
        let prefix = self.prefix;
        let mut between = "";
        for (what, gave, took) in rows {
            if self.is_timed {
                println!(rt; "{prefix}{what} {gave} {took}")?;
            } else {
                print!(rt; "{between}{prefix}{what} {gave}")?;
            }
            between = ", ";
        }
        if self.is_timed {
            return Ok(());
        }
        println!(rt; "")
    }
}
