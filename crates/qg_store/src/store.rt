// The store, and its one step.
ghost use Rattle.std.specs.Prelude.{◌≡◌, ◌<◌, ◌≤◌, ◌∷◌, List, None, IfOk, IfErr, IsTrue};
ghost use Rattle.qg_device.specs.Cause.{HasCause};
ghost use Rattle.qg_device.specs.History.{Event, Recorded, Synced, content};
ghost use Rattle.qg_num.specs.declared.answer.Answer.{Answer};
ghost use Rattle.qg_num.specs.declared.command.Command.TheVariants.{Commit};
ghost use Rattle.qg_num.specs.Fault.{stop_of};
ghost use Rattle.qg_super.specs.Places.{total_bytes};
ghost use Rattle.qg_super.specs.SuperText.{sizes_of};
ghost use Rattle.qg_grammar.specs.ScriptText.{is_in_grammar};
ghost use Rattle.qg_image.specs.State.{State};
ghost use Rattle.qg_image.specs.StateOf.{StateOf};
ghost use Rattle.qg_image.specs.Verdict.{verdict};
ghost use Rattle.qg_blocks.specs.NodesFound.{BreaksNone};
ghost use Rattle.qg_walk.specs.Fault.{TellsFailure};
ghost use Rattle.qg_crashes.specs.Outcomes.{Rests};
ghost use Rattle.qg_image_commits.specs.Opened.{IsOpened, IsOpening, OutlivesCrashes};
ghost use Rattle.qg_image_commits.specs.CommitOpening.{IsUntouched};
ghost use Rattle.qg_image_commits.specs.Answering.{AnswersOn, IsDoneSoFar, comes_to_disk, is_unchanging};
ghost use Rattle.qg_store.specs.Crashes.{IsLastCommit, OutlivesCommand};
ghost use Rattle.qg_store.specs.Work.{TakesSteps};
ghost use Rattle.qg_file_commands.specs.Reading.{AsksForFew};
ghost use Rattle.qg_image_commits.specs.Editing.{HasLooked};
ghost use Rattle.qg_image_commits.specs.Keeping.{IsKept, IsKeptOf};
ghost use Rattle.qg_image_commits.specs.Stored.{ComesToDisk, DoesCommand, GoesOn, IsReady, IsStoreOf};
ghost use Rattle.qg_image_commits.specs.Stored.{IsStoreOver, IsUnchanged, KnowsLast, RunsOrStops, is_aborted};
ghost use Rattle.qg_image_commits.specs.Stored.{sizes_stored};
ghost use Rattle.qg_store.specs.Stopping.{StopsByRead, StopsStore};

use crate::grouping::regroup;
use crate::structural::{create, delete, snap};
use qg_disk::Disk;
use qg_file_commands::{clone, list, truncate, unlink, write};
use qg_image_changes::{kept_of, show};
use qg_image_commits::open_image::OpenImage;
use qg_image_commits::open_image::image_commit::{OpenFault, open};
use qg_image_commits::{commit, owners};
use qg_num::{Address, Answer, BlockFault, Command, Generation, Steps, Stop};
use std::alloc::Global;
use std::marker::Model;
use std::sync::ledger::Ledger;

/// An open image, with what is pending (this project's own).
#[derive(Drop)]
pub struct Store {
    kept: OpenImage,
    stopped: Option<BlockFault>,
}

impl Model for Store {
    ghost use Rattle.qg_image_commits.specs.Stored.{Stored, IsStore};

    ghost Value = { Stored };

    ghost view = { λ s. record { kept = s.kept; stopped = s.stopped } };

    ghost invariant = { λ s. IsStore (record { kept = s.kept; stopped = s.stopped }) };
}

impl Store {
    /// Opens an image (this project's own): where it is sound, the store of the state that it stands for; else the
    /// first rule that it breaks, or the first stored counter that is not the direct count. Only a superblock place
    /// that does not hold the superblock that counts is written.
    pub fn open<D: Disk>(alloc: Global, disk: &mut D) -> Result<Store, OpenFault>
        // Over a disk that tells what it holds.
        ensures sound { (events : List Event) → D.history disk.old ≡ Recorded events
            → IfOk result (λ store. verdict (content events) ≡ None) }
        ensures opened { (events : List Event) (state : State) → D.history disk.old ≡ Recorded events
            → StateOf (content events) state
            → IfOk result (λ store. IsStoreOf store state (D.history disk.new)) }
        ensures refused { (events : List Event) → D.history disk.old ≡ Recorded events
            → IfErr result (λ fault. TellsFailure fault (verdict (content events))) }
        ensures repaired { (events : List Event) → D.history disk.old ≡ Recorded events
            → IfOk result (λ store. IsOpened events (D.history disk.new)) }
        ensures unwritten { (events : List Event) → D.history disk.old ≡ Recorded events
            → IfErr result (λ fault. IsUntouched fault (D.history disk.new) (Synced ∷ events)) }
        ensures touches { (events : List Event) → D.history disk.old ≡ Recorded events
            → IsOpening events (D.history disk.new) }

        // What a crash leaves since the first sync stands for the state that the image stood for; before it, it leaves
        // what it could as the call began. An opened image rests in that state.
        ensures crashes { (events : List Event) → D.history disk.old ≡ Recorded events
            → OutlivesCrashes events (D.history disk.new) result }

        // Over any disk.
        ensures ready { IfOk result (λ store. IsReady store (D.history disk.new) (D.size disk.new)) }
        ensures cause { HasCause OpenFault.Disk (D.faults disk.old) (D.faults disk.new) result }
    {
        let image = open(alloc, disk)?;
        let kept = kept_of(alloc, image)?;
        Ok(Store {
            kept,
            stopped: None,
        })
    }

    /// Does a command or refuses it, by one step of the machine (this project's own).
    /// A file command that is done edits its subvolume's tree in memory, and stays pending until a commit brings it to
    /// the disk. A structural command commits what is pending, makes its change, and commits that. What is refused or
    /// asked changes nothing, but that nodes were read. After a `Stop` the store does nothing more, and the image is to
    /// be opened again: `Image` comes where the disk no longer holds what the last call left there.
    ///
    /// Each node that is asked for counts as one step of `reads`, and each look-up of owners as one of `looks`: none is
    /// made so far.
    pub fn apply<D: Disk, L: Ledger, M: Ledger>(
        &mut self,
        disk: &mut D,
        command: &Command,
        looks: &mut Steps<L>,
        reads: &mut Steps<M>,
    ) -> Result<Answer, Stop>
        requires backed { IsStoreOver self.old (D.history disk.old) }
        requires long { total_bytes (sizes_stored self.old) ≤ D.size disk.old }
        requires numbers { IsTrue (is_in_grammar command.now) }

        // Over a disk that tells what it holds, the answer is the machine's, and the disk was made to hold what the
        // machine commits. Whatever is answered, nothing else was done than calls of a commit that the machine does.
        // No rule of the image is found broken.
        ensures machine { (state : State) (events : List Event) → IsStoreOf self.old state (D.history disk.old)
            → D.history disk.old ≡ Recorded events
            → DoesCommand state command.now events (D.history disk.new) result self.new.kept }

        // Where the disk rested in the last commit, what a crash leaves since then stands for that, or for one that the
        // command makes, whatever is answered. Once the command is answered, the disk rests in the last one again.
        ensures crashes { (state committed : State) (events : List Event)
            → IsStoreOf self.old state (D.history disk.old) → D.history disk.old ≡ Recorded events
            → Rests committed events → IsLastCommit committed state
            → OutlivesCommand state command.now committed events (D.history disk.new) result self.new.kept }

        // Over any disk. What is refused or asked changes nothing but clean nodes and which tree is at hand, and only a
        // commit of something, or a structural command, comes to the disk.
        ensures unchanged { IfOk result (λ answer. IsTrue (is_unchanging answer)
            → IsUnchanged self.old self.new × (D.history disk.new ≡ D.history disk.old)
            × (D.size disk.new ≡ D.size disk.old)) }
        ensures still { (ComesToDisk self.old command.now → ⊥)
            → (D.history disk.new ≡ D.history disk.old) × (D.size disk.new ≡ D.size disk.old) }

        // A stop by what was read leaves a disk as it was, but for the first commit of a structural command, and names
        // a rule at an address only for a cause. After a stop nothing is done any more, and nothing is read.
        ensures intact { StopsStore result command.now self.old self.new (D.history disk.old) (D.history disk.new)
            (D.size disk.old) }
        ensures aborted { IfErr result (λ stop. IsTrue (is_aborted stop)
            → (disk.new ≡ disk.old) × (reads.new ≡ reads.old)) }
        ensures stops { RunsOrStops result command.now self.old self.new (D.history disk.old) (D.history disk.new) }
        ensures cause { HasCause Stop.Disk (D.faults disk.old) (D.faults disk.new) result }

        ensures goes_on { GoesOn self.old self.new (D.history disk.new) (D.size disk.old) (D.size disk.new) }

        // The steps that were counted: no look-up so far, and for a file command that is accepted as many nodes asked
        // for as its bound and its look-ups allow.
        ensures counts { TakesSteps command.now result self.old self.new (D.history disk.old) (D.history disk.new)
            looks.old looks.new reads.old reads.new }
    {
        if let Some(cause) = self.stopped {
            return Err(Stop::Aborted(cause));
        }
        match answer(&mut self.kept, disk, command, reads) {
            Ok(answer) => Ok(answer),
            Err(fault) => {
                let stop = stop_of(&fault);
                self.stopped = Some(fault);
                Err(stop)
            }
        }
    }

    /// The committed generation.
    pub fn generation(&self) -> Generation
        ensures { result ≡ self.now.kept.superblock.generation }
    {
        self.kept.superblock.generation
    }
}

// What a store answers that stops for a fault.
fn stop_of(fault: &BlockFault) -> Stop
    ensures { result ≡ stop_of fault.now }
{
    match fault {
        BlockFault::NoMemory => Stop::NoMemory,
        BlockFault::Disk => Stop::Disk,
        BlockFault::Image { rule, address } => Stop::Image {
            rule: *rule,
            address: *address,
        },
    }
}

// Does a command or refuses it.
fn answer<D: Disk, M: Ledger>(
    kept: &mut OpenImage,
    disk: &mut D,
    command: &Command,
    reads: &mut Steps<M>,
) -> Result<Answer, BlockFault>
    requires kept { IsKept kept.old (D.history disk.old) (D.size disk.old) }
    requires numbers { IsTrue (is_in_grammar command.now) }
    ensures kept { IfOk result (λ answer. IsKept kept.new (D.history disk.new) (D.size disk.new))
        × (sizes_of kept.new.superblock ≡ sizes_of kept.old.superblock) × (D.size disk.old ≤ D.size disk.new) }
    ensures step { (state : State) (events : List Event) → IsKeptOf kept.old state (D.history disk.old)
        → D.history disk.old ≡ Recorded events
        → IfOk result (λ answer. AnswersOn state command.now answer kept.new events (D.history disk.new)) }
    ensures so_far { (state : State) (events : List Event) → IsKeptOf kept.old state (D.history disk.old)
        → D.history disk.old ≡ Recorded events
        → IsDoneSoFar state command.now events (D.history disk.new) }
    ensures sound { (state : State) (events : List Event) → D.history disk.old ≡ Recorded events
        → IsKeptOf kept.old state (D.history disk.old) → BreaksNone result }
    ensures unchanged { IfOk result (λ answer. IsTrue (is_unchanging answer)
        → HasLooked kept.old kept.new (D.history disk.old) (D.history disk.new) (D.size disk.old) (D.size disk.new)) }
    ensures still { (IsTrue (comes_to_disk command.now) → (command.now ≡ Commit → 0 < kept.old.pending) → ⊥)
        → (D.history disk.new ≡ D.history disk.old) × (D.size disk.new ≡ D.size disk.old) }
    ensures err { IfErr result
        (λ fault. KnowsLast command.now kept.old kept.new (D.history disk.old) (D.history disk.new)) }
    ensures intact { StopsByRead result command.now kept.old kept.new (D.history disk.old) (D.history disk.new)
        (D.size disk.old) }
    ensures reads { IfOk result
        (λ answer. AsksForFew kept.old (D.history disk.old) command.now answer reads.old reads.new) }
    ensures cause { HasCause BlockFault.Disk (D.faults disk.old) (D.faults disk.new) result }
{
    match command {
        Command::Write { sub, ino, off, len } => write(kept, disk, *sub, *ino, *off, *len, reads),
        Command::Clone {
            sub,
            ino,
            off,
            len,
            to_sub,
            to_ino,
            to_off,
        } => clone(
            kept, disk, *sub, *ino, *off, *len, *to_sub, *to_ino, *to_off, reads,
        ),
        Command::Truncate { sub, ino, size } => truncate(kept, disk, *sub, *ino, *size, reads),
        Command::Unlink { sub, ino } => unlink(kept, disk, *sub, *ino, reads),
        Command::Commit => commit(kept, disk, reads),
        Command::SubCreate => create(kept, disk, reads),
        Command::Snap { sub, groups } => snap(kept, disk, *sub, groups.as_slice(), reads),
        Command::Delete { sub } => delete(kept, disk, *sub, reads),
        Command::Show => Ok(show(kept.alloc, &kept.quota)?),
        Command::Ls { sub, ino } => list(kept, disk, *sub, *ino, reads),
        Command::Owners { address } => owners(kept, disk, Address::new(*address), reads),
        Command::QuotaOn
        | Command::QuotaOff
        | Command::GroupCreate { .. }
        | Command::GroupDestroy { .. }
        | Command::Assign { .. }
        | Command::Remove { .. }
        | Command::Limit { .. } => regroup(kept, disk, command, reads),
    }
}
