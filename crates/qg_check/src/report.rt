// What is told of an image that is judged whole.
ghost use Rattle.std.specs.Prelude.{◌≡◌, List, IfOk, IsErrOf};
ghost use Rattle.qg_device.specs.Cause.{HasCause};
ghost use Rattle.qg_device.specs.History.{Event, Recorded, content};
ghost use Rattle.qg_walk.specs.declared.fault.OpenFault.TheVariants as opening;
ghost use Rattle.qg_image.specs.Verdict.{verdict};
ghost use Rattle.qg_walk.specs.Fault.{FailsAs};
ghost use Rattle.qg_check.specs.Report.{IsReportOn, IsSoundAt, report_of};

use crate::judge::judge;
use crate::read::{Whole, read_whole};
use qg_disk::Disk;
use qg_num::{Address, Generation, GroupId, Rule, Which};
use qg_walk::OpenFault;
use std::alloc::Global;
use thiserror::Error;

/// What an image is (this project's own). Addresses and counters are in bytes.
#[derive(Clone, Copy, PartialEq, Eq)]
pub enum Report {
    /// It is sound, and this is the generation that counts.
    Sound(Generation),
    /// It breaks a rule, at an address.
    Broken {
        rule: Rule,
        address: Address,
    },
    /// A group's stored counter is not the direct count.
    Differs {
        group: GroupId,
        which: Which,
        stored: u64,
        counted: u64,
    },
}

/// Why an image was not judged (this project's own).
#[derive(Clone, Copy, Debug, PartialEq, Eq, Error)]
pub enum CheckFault {
    /// The disk failed.
    #[error("the disk failed")]
    Disk,
    /// Memory was refused.
    #[error("memory was refused")]
    NoMemory,
}

/// Judges an image whole, from its superblocks down, by the rules that an image is opened by: its first failure, or the
/// generation of its superblock where it is sound (this project's own). It writes nothing.
pub fn count_image<D: Disk>(alloc: Global, disk: &mut D) -> Result<Report, CheckFault>
    ensures report { (events : List Event) → D.history disk.old ≡ Recorded events
        → IfOk result (λ report. IsReportOn (content events) report) }
    ensures history { D.history disk.new ≡ D.history disk.old }
    ensures size { D.size disk.new ≡ D.size disk.old }
    ensures cause { HasCause CheckFault.Disk (D.faults disk.old) (D.faults disk.new) result }
{
    match count(alloc, disk) {
        Ok(generation) => Ok(Report::Sound(generation)),
        Err(fault) => report_of(fault),
    }
}

// The generation of an image that is sound; else why it is not, or was not judged.
fn count<D: Disk>(alloc: Global, disk: &mut D) -> Result<Generation, OpenFault>
    ensures failure { (events : List Event) → D.history disk.old ≡ Recorded events
        → FailsAs result (verdict (content events)) }
    ensures at { (events : List Event) → D.history disk.old ≡ Recorded events
        → IfOk result (λ generation. IsSoundAt (content events) generation) }
    ensures history { D.history disk.new ≡ D.history disk.old }
    ensures size { D.size disk.new ≡ D.size disk.old }
    ensures cause { HasCause OpenFault.Disk (D.faults disk.old) (D.faults disk.new) result }
{
    let whole = read_whole(alloc, disk)?;
    let Whole {
        superblock,
        read,
        ..
    } = whole;
    judge(alloc, &superblock, read)?;
    Ok(superblock.generation)
}

// What is told of an image that could not be opened.
fn report_of(fault: OpenFault) -> Result<Report, CheckFault>
    ensures told { result ≡ report_of fault }
    ensures disk { IsErrOf result CheckFault.Disk → fault ≡ opening.Disk }
{
    match fault {
        OpenFault::Broken { rule, address } => Ok(Report::Broken { rule, address }),
        OpenFault::Differs {
            group,
            which,
            stored,
            counted,
        } => Ok(Report::Differs {
            group,
            which,
            stored,
            counted,
        }),
        OpenFault::Disk => Err(CheckFault::Disk),
        OpenFault::NoMemory => Err(CheckFault::NoMemory),
    }
}
