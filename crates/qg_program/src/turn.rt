// One line after the other.
ghost use Rattle.std.specs.Prelude.{◌≡◌, ◌≢◌, ◌<◌, List, ℕ, Some, Ok, Err, true, IfOk, IfErr, OnOk, IsTrue};
ghost use Rattle.qg_device.specs.History.{Event, Recorded, content};
ghost use Rattle.qg_script.specs.Feeding.{most_to_come};
ghost use Rattle.qg_script.specs.Lines.{pending};
ghost use Rattle.qg_image.specs.State.{State};
ghost use Rattle.qg_image.specs.StateOf.{StateOf};
ghost use Rattle.qg_crashes.specs.Outcomes.{Rests};
ghost use Rattle.qg_store.specs.CommitOpened.{IsOpened};
ghost use Rattle.qg_store.specs.Stored.{IsReady, IsStoreOf};
ghost use Rattle.qg_program.specs.Ends.{HasCauses, is_answerers};
ghost use Rattle.qg_program.specs.Following.{Follows};
ghost use Rattle.qg_program.specs.Leaving.{Input, LeavesBehind};
ghost use Rattle.qg_program.specs.Putting.{PutsFailure};
ghost use Rattle.qg_program.specs.Running.{IsTaken};
ghost use Rattle.qg_program.specs.Turning.{FailsToTurn, HaveCauses, IsBlankOf, IsTurn, PutsLine};
ghost use Rattle.qg_program.specs.Turning.{StandsOver, TakesTurn};

use crate::Status;
use crate::answer::answer_line;
use crate::put::{end, put};
use crate::session::Session;
use qg_disk::Disk;
use qg_edge::{Sink, Source};
use qg_num::Steps;
use qg_script::{Feed, Text, next_line};
use qg_store::Store;
use std::alloc::Global;
use std::sync::ledger::{Blank, Ledger};

// Answers the next line, if there is one; says whether there was. Where a rule of the image is found broken, the line
// that says so is put in place of the reply.
fn turn<L: Ledger, M: Ledger, D: Disk, S: Source, K: Sink>(
    alloc: Global,
    session: &mut Session<L, M>,
    disk: &mut D,
    source: &mut S,
    feed: &mut Feed,
    text: &mut Text,
    sink: &mut K,
) -> Result<bool, Status>
    requires { IsReady session.old.store (D.history disk.old) (D.size disk.old) }
    ensures ok { (state : State) (events : List Event) → IsStoreOf session.old.store state (D.history disk.old)
        → D.history disk.old ≡ Recorded events
        → IfOk result (λ more.
        IsTurn more state events (pending feed.old (S.bytes_left source.old))
        (pending feed.new (S.bytes_left source.new))
        session.new.store (D.history disk.new) (K.bytes_held sink.old) (K.bytes_held sink.new)) }
    ensures err { (state : State) (events : List Event) → IsStoreOf session.old.store state (D.history disk.old)
        → D.history disk.old ≡ Recorded events
        → IfErr result (λ status.
        FailsToTurn status state events (pending feed.old (S.bytes_left source.old))
        (pending feed.new (S.bytes_left source.new))
        session.new.store (D.history disk.new) (K.bytes_held sink.old) (K.bytes_held sink.new)) }
    ensures stands { StandsOver session.old.store (D.history disk.old)
        → OnOk result (StandsOver session.new.store (D.history disk.new)) }
    ensures sound { StandsOver session.old.store (D.history disk.old) → result ≢ Err Status.Image }
    ensures ready { OnOk result (IsReady session.new.store (D.history disk.new) (D.size disk.new)) }
    ensures ends { IfErr result (λ status. IsTrue (is_answerers status) × (status ≡ Status.Done → ⊥)) }

    // Over any disk.
    ensures puts { PutsLine result (K.bytes_held sink.old) (K.bytes_held sink.new) }
    ensures takes { TakesTurn result feed.old feed.new (S.bytes_left source.old) (S.bytes_left source.new)
        (source.new ≡ source.old) }
    ensures shrinks { result ≡ Ok true → most_to_come feed.new < most_to_come feed.old }
    ensures causes { HaveCauses result (S.faults source.old) (S.faults source.new) (K.faults sink.old)
        (K.faults sink.new) (D.faults disk.old) (D.faults disk.new) }
{
    let Some(line) = next_line(feed, source)? else {
        return Ok(false);
    };
    match answer_line(alloc, session, disk, line.as_slice(), text) {
        Ok(()) => {
            put(sink, text.as_slice())?;
            Ok(true)
        }
        Err(status) => Err(end(status, text, sink)),
    }
}

/// Answers the lines of a source over a store that was just opened; counts steps by two new ledgers.
pub(crate) fn answer_lines<L: Ledger, M: Ledger, D: Disk, S: Source, K: Sink>(
    alloc: Global,
    store: Store,
    looks: Blank,
    reads: Blank,
    disk: &mut D,
    source: &mut S,
    sink: &mut K,
) -> Status
    requires ready { IsReady store (D.history disk.old) (D.size disk.old) }
    requires looks { IsBlankOf looks.name looks.parts L.name L.parts }
    requires reads { IsBlankOf reads.name reads.parts M.name M.parts }
    ensures follows { (state : State) (events opened : List Event) (input : List ℕ)
        → IsStoreOf store state (D.history disk.old)
        → IsOpened events (Recorded opened) → D.history disk.old ≡ Recorded opened
        → S.bytes_left source.old ≡ Some input
        → Follows result state input (S.bytes_left source.new) events (D.history disk.new)
        (K.bytes_held sink.old) (K.bytes_held sink.new) }
    ensures crashes { (state : State) (events opened after : List Event) → IsStoreOf store state (D.history disk.old)
        → IsOpened events (Recorded opened) → D.history disk.old ≡ Recorded opened → D.history disk.new ≡ Recorded after
        → StateOf (content events) state → Rests state opened
        → LeavesBehind result state (Input (S.bytes_left source.old)) events after (K.bytes_held sink.old)
        (K.bytes_held sink.new) }
    ensures sound { StandsOver store (D.history disk.old) → result ≢ Status.Image }
    ensures told { result ≡ Status.Image → PutsFailure (K.bytes_held sink.old) (K.bytes_held sink.new) }
    ensures takes { IsTaken result (S.bytes_left source.old) (S.bytes_left source.new) }
    ensures ends { IsTrue (is_answerers result) }
    ensures causes { HasCauses result (S.faults source.old) (S.faults source.new) (K.faults sink.old)
        (K.faults sink.new) (D.faults disk.old) (D.faults disk.new) }
{
    let mut session = Session {
        store,
        looks: Steps::<L>::new(looks),
        reads: Steps::<M>::new(reads),
    };
    let mut feed = Feed::new(alloc);
    let mut text = Text::new(alloc);
    loop {
        match turn(
            alloc,
            &mut session,
            disk,
            source,
            &mut feed,
            &mut text,
            sink,
        ) {
            Ok(true) => {}
            Ok(false) => return Status::Done,
            Err(status) => return status,
        }
    }
}
