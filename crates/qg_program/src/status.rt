// How a call of the program ends.
ghost use Rattle.std.specs.Prelude.{◌≡◌};
ghost use Rattle.qg_program.specs.Ends.{exit_number, line_fault};
ghost use Rattle.qg_program.specs.declared.status.Status.TheVariants as status;

use qg_num::NoMemory;
use qg_script::LineFault;

/// How a call of the program ended (this project's own).
#[derive(Clone, Copy, PartialEq, Eq)]
pub enum Status {
    /// What was asked for was done, and all its bytes were put.
    Done,
    /// Memory was refused.
    NoMemory,
    /// The words are those of no form.
    Words,
    /// The image is not sound, or was found broken behind its opening, and the line that says so was put.
    Image,
    /// The source failed.
    Source,
    /// The sink failed.
    Sink,
    /// The disk failed.
    Disk,
    /// The image was judged and is not sound, and the line that says so was put.
    Found,
    /// A size, or the count of the generator's lines, is out of its range.
    Sizes,
    /// The input has more bytes than a script may have.
    TooLong,
}

impl Status {
    /// The number that the process ends with (this project's own).
    pub fn code(self) -> u8
        ensures { result ≡ exit_number self }
    {
        match self {
            Status::Done => 0,
            Status::NoMemory => 1,
            Status::Words => 2,
            Status::Image => 3,
            Status::Source => 4,
            Status::Sink => 5,
            Status::Disk => 6,
            Status::Found => 7,
            Status::Sizes => 8,
            Status::TooLong => 9,
        }
    }
}

impl From<LineFault> for Status {
    ghost from_gives = { λ fault e. e ≡ line_fault fault };

    fn from(fault: LineFault) -> Status {
        match fault {
            LineFault::Source => Status::Source,
            LineFault::TooLong => Status::TooLong,
            LineFault::NoMemory => Status::NoMemory,
        }
    }
}

impl From<NoMemory> for Status {
    ghost from_gives = { λ _ e. e ≡ status.NoMemory };

    fn from(_: NoMemory) -> Status {
        Status::NoMemory
    }
}
