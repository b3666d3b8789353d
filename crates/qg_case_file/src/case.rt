// What a file of cases says.
use qg_disk::Tear;
use std::alloc::Global;

/// A number that a line names, or the one that the part is run for (this project's own).
#[derive(Clone, Copy, PartialEq, Eq)]
pub enum Number {
    /// The number itself.
    Given(u64),
    /// The number that the part is run for.
    Each,
}

/// Bytes of a disk that are read as others from one call of a run on (this project's own).
#[derive(Drop)]
pub struct Flip {
    /// The first of these calls.
    pub call: Number,
    /// Where the bytes lie.
    pub at: u64,
    /// What is read there.
    pub bytes: Vec<u8>,
}

/// Which calls of a run are to fail (this project's own). The first call that the run makes of an object has the number
/// 1.
#[derive(Drop)]
pub struct Plan {
    /// Calls of the disk.
    pub disk: Vec<Number>,
    /// Takes of the source.
    pub source: Vec<Number>,
    /// Puts of the sink.
    pub sink: Vec<Number>,
    /// The last call of the disk that does not fail.
    pub last: Option<Number>,
    /// The bytes of the disk that change.
    pub flip: Option<Flip>,
}

/// What is wanted of a run (this project's own).
#[derive(Drop)]
pub struct Wanted {
    /// The bytes that are put.
    pub put: Vec<u8>,
    /// The number of the status.
    pub status: u8,
    /// How many calls of the disk are made, where it matters.
    pub count: Option<Number>,
    /// The texts of those calls, in order, where they matter. Those that read are left out unless one of them is
    /// wanted.
    pub calls: Option<Vec<String>>,
}

/// One call of the program (this project's own).
#[derive(Drop)]
pub struct CaseRun {
    /// The words of the command line.
    pub words: Vec<String>,
    /// The bytes of the source.
    pub input: Vec<u8>,
    /// What is to fail.
    pub plan: Plan,
    /// What is wanted.
    pub wanted: Wanted,
}

/// The crashes behind each call of the last run, and what is wanted of the images that they leave (this project's own).
#[derive(Drop)]
pub struct Crashes {
    /// What they do to all that no sync had made sure of.
    pub tears: Vec<Tear>,
    /// Whether there are also those that lose one change since the last sync, and no other.
    pub losses: bool,
    /// The bytes of the source of the run over each image.
    pub input: Vec<u8>,
    /// The bytes that such a run puts: first over the image as it was before, then over that of each commit.
    pub states: Vec<Vec<u8>>,
}

/// One thing that is done, or wanted between runs (this project's own). Places and lengths are in bytes.
#[derive(Drop)]
pub enum Step {
    /// An empty disk is taken.
    Empty,
    /// The program is called.
    Run(CaseRun),
    /// Bytes of the disk are set.
    Set { at: u64, bytes: Vec<u8> },
    /// The checksum of a node or a superblock is made right.
    Checksum { at: u64, len: u64 },
    /// The disk is cut to a length.
    Cut { len: u64 },
    /// The disk is made so long.
    Extend { len: u64 },
    /// Bytes of the disk are wanted.
    Bytes { at: u64, bytes: Vec<u8> },
    /// A length of the disk is wanted.
    Length { len: u64 },
    /// The disk becomes what a crash behind a call of the last run leaves of it.
    Crash { call: Number, tear: Tear },
    /// So it does, where one change since the last sync is lost, and no other.
    Loss { call: Number, change: Number },
    /// All crashes of the last run are judged.
    Crashes(Crashes),
}

/// Steps over one disk, one after the other (this project's own).
#[derive(Drop)]
pub struct Part {
    /// The first and the last number that it is run for.
    pub each: Option<(u64, u64)>,
    /// The file on whose disk it goes on.
    pub after: Option<String>,
    /// The steps, each with the number of its line.
    pub steps: Vec<(u64, Step)>,
}

/// The parts of a file (this project's own).
#[derive(Drop)]
pub struct Case {
    /// The file's name.
    pub name: String,
    /// Its parts. Each begins with an empty disk, unless it goes on.
    pub parts: Vec<Part>,
}

impl Plan {
    /// Nothing is to fail.
    pub(crate) fn new(alloc: Global) -> Plan {
        Plan {
            disk: Vec::new(alloc),
            source: Vec::new(alloc),
            sink: Vec::new(alloc),
            last: None,
            flip: None,
        }
    }
}

impl Wanted {
    /// Status 0, and nothing put.
    pub(crate) fn new(alloc: Global) -> Wanted {
        Wanted {
            put: Vec::new(alloc),
            status: 0,
            count: None,
            calls: None,
        }
    }
}

impl CaseRun {
    /// A call with these words, without input, of which nothing is to fail.
    pub(crate) fn new(alloc: Global, words: Vec<String>) -> CaseRun {
        CaseRun {
            words,
            input: Vec::new(alloc),
            plan: Plan::new(alloc),
            wanted: Wanted::new(alloc),
        }
    }
}

impl Crashes {
    /// No crash, and no state.
    pub(crate) fn new(alloc: Global) -> Crashes {
        Crashes {
            tears: Vec::new(alloc),
            losses: false,
            input: Vec::new(alloc),
            states: Vec::new(alloc),
        }
    }
}

impl Part {
    /// A part without steps.
    pub(crate) fn new(alloc: Global) -> Part {
        Part {
            each: None,
            after: None,
            steps: Vec::new(alloc),
        }
    }
}
