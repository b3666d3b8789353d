// The top call.
ghost use Rattle.std.specs.Prelude.{◌≡◌, ◌⊎◌, List, IsTrue};
ghost use Rattle.qg_device.specs.History.{Event, Recorded, content};
ghost use Rattle.qg_super.specs.declared.sizes.Sizes.{Sizes};
ghost use Rattle.qg_image.specs.State.{State};
ghost use Rattle.qg_image.specs.StateOf.{StateOf};
ghost use Rattle.qg_words.specs.Words.{texts, HaveForm};
ghost use Rattle.qg_program.specs.Words.{AskForNothing, AskServed, AskToCheck, AskToRun, EndsByForm};
ghost use Rattle.qg_program.specs.Ends.{EndsWhere, is_refused};
ghost use Rattle.qg_program.specs.Putting.{MakesImage, RefusesAsAsked};
ghost use Rattle.qg_program.specs.Checking.{Checks};
ghost use Rattle.qg_program.specs.Complete.{EndsForCause};
ghost use Rattle.qg_program.specs.Generating.{FollowsAsAsked};
ghost use Rattle.qg_program.specs.Leaving.{LeavesAsAsked};
ghost use Rattle.qg_program.specs.Running.{IsTaken};

use crate::Status;
use crate::check::check;
use crate::generate::generate;
use crate::make::make;
use crate::run::run;
use qg_disk::Disk;
use qg_edge::{Sink, Source};
use qg_words::{Form, read_words};
use std::alloc::Global;

/// Does what the words say (this project's own): `mkfs NODESIZE SLOTS SECTORS` makes a fresh image on the disk and puts
/// the line `ok mkfs`; `run` opens the image and answers each line of the source; `gen SEED COUNT` opens it,
/// answers the generator's lines, commits, and puts how many were done and what groups count. Of an image that is not
/// sound both put the line that says why. `check` puts what the image is, and writes nothing. Any other words are
/// refused.
pub fn run_program<D: Disk, S: Source, K: Sink>(
    alloc: Global,
    words: &Vec<String>,
    disk: &mut D,
    source: &mut S,
    sink: &mut K,
) -> Status
    // Words and sizes are judged before anything is done, and each form has its ends. To read the words takes memory.
    ensures words { EndsWhere Status.Words result (HaveForm (texts words.now.items) → ⊥) }
    ensures untouched { IsTrue (is_refused result) ⊎ AskForNothing words.now.items
        → (disk.new ≡ disk.old) × (source.new ≡ source.old) × (sink.new ≡ sink.old) }
    ensures ends { EndsByForm result words.now.items }

    // An image is made, and the source is left as it is.
    ensures makes { (sizes : Sizes) → AskServed words.now.items sizes
        → MakesImage result sizes D.takes_memory (D.history disk.old) (D.history disk.new)
        (K.bytes_held sink.old) (K.bytes_held sink.new) × (source.new ≡ source.old) }

    // An image is judged by its verdict, and neither disk nor source is changed.
    ensures checks { AskToCheck words.now.items
        → Checks result (D.history disk.old) (K.bytes_held sink.old) (K.bytes_held sink.new)
        × (D.history disk.new ≡ D.history disk.old) × (D.size disk.new ≡ D.size disk.old)
        × (source.new ≡ source.old) }

    // A run over a sound image follows the machine from the state that the image stands for, and so does one of the
    // generator's lines. Over any other they say the first failure; nothing else but `check` says that an image is not
    // sound.
    ensures follows { (events : List Event) (state : State) → D.history disk.old ≡ Recorded events
        → StateOf (content events) state
        → FollowsAsAsked words.now.items result state (S.bytes_left source.old) (S.bytes_left source.new) events
        (D.history disk.new) (K.bytes_held sink.old) (K.bytes_held sink.new) }
    ensures refuses { RefusesAsAsked words.now.items result (D.history disk.old) (D.history disk.new)
        (K.bytes_held sink.old) (K.bytes_held sink.new) (source.new ≡ source.old) }

    // What a crash leaves at any moment of either over a sound image: a state that was committed, or the opened one,
    // and none that is older than what was acknowledged by then.
    ensures crashes { (events after : List Event) (state : State) → D.history disk.old ≡ Recorded events
        → D.history disk.new ≡ Recorded after → StateOf (content events) state
        → LeavesAsAsked words.now.items result state (S.bytes_left source.old) events after (K.bytes_held sink.old)
        (K.bytes_held sink.new) }

    // A run takes bytes of the source; all else leaves it as it is.
    ensures takes { (AskToRun words.now.items → IsTaken result (S.bytes_left source.old) (S.bytes_left source.new))
        × ((AskToRun words.now.items → ⊥) → source.new ≡ source.old) }

    // A fault of source, sink or disk is met once where the program ends for it, and none is at any other end; and
    // where nothing fails what was asked is done.
    ensures causes { EndsForCause words.now.items result (D.history disk.old) (S.bytes_left source.old)
        (S.faults source.old) (S.faults source.new) (K.faults sink.old) (K.faults sink.new) (D.faults disk.old)
        (D.faults disk.new) }
{
    match read_words(alloc, words) {
        Ok(Some(Form::Mkfs(sizes))) => make(alloc, sizes, disk, sink),
        Ok(Some(Form::Run)) => run(alloc, disk, source, sink),
        Ok(Some(Form::Check)) => check(alloc, disk, sink),
        Ok(Some(Form::Generate { seed, count })) => generate(alloc, seed, count, disk, sink),
        Ok(None) => Status::Words,
        Err(_) => Status::NoMemory,
    }
}
