// The generator's lines are run over an image.
ghost use Rattle.std.specs.Prelude.{◌≡◌, ◌≢◌, ◌↔◌, ◌<◌, ◌≤◌, ◌+◌, ◌^◌, [], List, length, not, Some, IfOk, IfErr, OnOk};
ghost use Rattle.std.specs.Prelude.{IsTrue};
ghost use Rattle.qg_device.specs.Cause.{HasCause, HasEndCause};
ghost use Rattle.qg_device.specs.History.{Event, Recorded, content};
ghost use Rattle.qg_grammar.specs.ScriptText.{IsLineOf, command_text};
ghost use Rattle.qg_image.specs.State.{State};
ghost use Rattle.qg_image.specs.StateOf.{StateOf};
ghost use Rattle.qg_image.specs.Verdict.{IsSound, verdict};
ghost use Rattle.qg_image.specs.declared.failure.Failure.{Failure};
ghost use Rattle.qg_crashes.specs.Outcomes.{Rests};
ghost use Rattle.qg_store.specs.CommitOpened.{IsOpened};
ghost use Rattle.qg_store.specs.Stored.{IsReady, IsStoreOf};
ghost use Rattle.qg_program.specs.Ends.{is_generators, is_stop};
ghost use Rattle.qg_program.specs.Generating.{Generates, asked_lines, is_refused, lines_of};
ghost use Rattle.qg_program.specs.Leaving.{Drawn, LeavesBehind};
ghost use Rattle.qg_program.specs.Loading.{AreRun, IsAnswered, IsLoaded, StopsWithin, counted};
ghost use Rattle.qg_program.specs.Putting.{RefusesImage, SaysFailure, TellsFailure};
ghost use Rattle.qg_program.specs.Turning.{IsBlankOf, IsLineSoFar, StandsOver};
ghost use Rattle.qg_program.specs.Words.{most_lines};

use crate::Status;
use crate::put::{end, put_and_end};
use crate::refuse::refuse;
use crate::session::Session;
use qg_disk::Disk;
use qg_edge::Sink;
use qg_generator::Generator;
use qg_num::{Answer, Command, Steps};
use qg_script::{Text, write_reply, write_summary};
use qg_store::Store;
use std::alloc::Global;
use std::marker::Brand;
use std::sync::ledger::{Blank, Ledger};

/// How many lines may be drawn at most.
const MOST_LINES: u64 = 100000;

/// How many lines were done, and how many refused.
#[derive(Clone, Copy, PartialEq, Eq)]
pub struct Tally {
    /// How many lines were done.
    pub done: u64,
    /// How many lines were refused.
    pub refused: u64,
}

impl Tally {
    // One line more.
    fn count(&mut self, done: bool)
        requires { self.old.done + self.old.refused + 1 < 2 ^ 64 }
        ensures { self.new ≡ counted done self.old }
    {
        if done {
            self.done += 1;
            return;
        }
        self.refused += 1;
    }
}

/// Opens the image, answers the generator's lines and commits; says how many lines were done and how many refused, and
/// what groups count. Of an image that is not sound it says why.
pub(crate) fn generate<D: Disk, K: Sink>(
    alloc: Global,
    seed: u64,
    count: u64,
    disk: &mut D,
    sink: &mut K,
) -> Status
    ensures sizes { (result ≡ Status.Sizes) ↔ (most_lines < count) }
    ensures untouched { result ≡ Status.Sizes → (disk.new ≡ disk.old) × (sink.new ≡ sink.old) }
    ensures generates { (events : List Event) (state : State) → count ≤ most_lines
        → D.history disk.old ≡ Recorded events
        → StateOf (content events) state
        → Generates result state seed count events (D.history disk.new) (K.bytes_held sink.old)
        (K.bytes_held sink.new) }
    ensures crashes { (events after : List Event) (state : State) → count ≤ most_lines
        → D.history disk.old ≡ Recorded events
        → D.history disk.new ≡ Recorded after → StateOf (content events) state
        → LeavesBehind result state (Drawn seed count) events after (K.bytes_held sink.old) (K.bytes_held sink.new) }
    ensures refuses { (events : List Event) (failure : Failure) → count ≤ most_lines
        → D.history disk.old ≡ Recorded events
        → verdict (content events) ≡ Some failure
        → RefusesImage result failure events (D.history disk.new) (K.bytes_held sink.old) (K.bytes_held sink.new) }
    ensures unsound { (events : List Event) → D.history disk.old ≡ Recorded events → result ≡ Status.Image
        → IsSound (content events) → ⊥ }
    ensures told { result ≡ Status.Image
        → (count ≤ most_lines) × SaysFailure (K.bytes_held sink.old) (K.bytes_held sink.new) }
    ensures ends { IsTrue (is_generators result) }
    ensures sink_fault { HasEndCause Status.Sink (K.faults sink.old) (K.faults sink.new) result }
    ensures disk_fault { HasEndCause Status.Disk (D.faults disk.old) (D.faults disk.new) result }
{
    if count > MOST_LINES {
        return Status::Sizes;
    }
    match Store::open(alloc, disk) {
        Ok(store) => run_generated::<Brand, Brand, D, K>(
            alloc,
            store,
            Blank::new(1),
            Blank::new(1),
            seed,
            count,
            disk,
            sink,
        ),
        Err(fault) => refuse(alloc, fault, sink),
    }
}

// Answers the generator's lines over a store that was just opened, and says what came of it; counts steps by two new
// ledgers.
fn run_generated<L: Ledger, M: Ledger, D: Disk, K: Sink>(
    alloc: Global,
    store: Store,
    looks: Blank,
    reads: Blank,
    seed: u64,
    count: u64,
    disk: &mut D,
    sink: &mut K,
) -> Status
    requires ready { IsReady store (D.history disk.old) (D.size disk.old) }
    requires looks { IsBlankOf looks.name looks.parts L.name L.parts }
    requires reads { IsBlankOf reads.name reads.parts M.name M.parts }
    requires few { count ≤ most_lines }
    ensures generates { (state : State) (events opened : List Event) → IsStoreOf store state (D.history disk.old)
        → IsOpened events (Recorded opened) → D.history disk.old ≡ Recorded opened
        → Generates result state seed count events (D.history disk.new) (K.bytes_held sink.old)
        (K.bytes_held sink.new) }
    ensures crashes { (state : State) (events opened after : List Event) → IsStoreOf store state (D.history disk.old)
        → IsOpened events (Recorded opened) → D.history disk.old ≡ Recorded opened → D.history disk.new ≡ Recorded after
        → StateOf (content events) state → Rests state opened
        → LeavesBehind result state (Drawn seed count) events after (K.bytes_held sink.old) (K.bytes_held sink.new) }
    ensures sound { StandsOver store (D.history disk.old) → result ≢ Status.Image }
    ensures told { result ≡ Status.Image → SaysFailure (K.bytes_held sink.old) (K.bytes_held sink.new) }
    ensures ends { IsTrue (is_generators result) × (result ≢ Status.Sizes) }
    ensures sink_fault { HasEndCause Status.Sink (K.faults sink.old) (K.faults sink.new) result }
    ensures disk_fault { HasEndCause Status.Disk (D.faults disk.old) (D.faults disk.new) result }
{
    let mut session = Session {
        store,
        looks: Steps::<L>::new(looks),
        reads: Steps::<M>::new(reads),
    };
    let mut text = Text::new(alloc);
    match load(alloc, &mut session, seed, count, disk, &mut text) {
        Ok(()) => put_and_end(Status::Done, text.as_slice(), sink),
        Err(status) => end(status, &text, sink),
    }
}

// Answers the generator's lines, commits, and makes a text what is to be said; `Err` says how the program ends. Where a
// rule of the image is found broken the text is the line that says so.
#[tactic(auto, unfolding(qg_grammar::specs::ScriptText::is_in_grammar))]
fn load<D: Disk, L: Ledger, M: Ledger>(
    alloc: Global,
    session: &mut Session<L, M>,
    seed: u64,
    count: u64,
    disk: &mut D,
    text: &mut Text,
) -> Result<(), Status>
    requires ready { IsReady session.old.store (D.history disk.old) (D.size disk.old) }
    requires few { count ≤ most_lines }
    requires blank { text.old ≡ [] }
    ensures loaded { (state : State) (events : List Event) → IsStoreOf session.old.store state (D.history disk.old)
        → D.history disk.old ≡ Recorded events
        → OnOk result (IsLoaded state seed count text.new events (D.history disk.new)) }
    ensures stopped { (state : State) (events : List Event) → IsStoreOf session.old.store state (D.history disk.old)
        → D.history disk.old ≡ Recorded events
        → IfErr result (λ status. StopsWithin state (asked_lines seed count) events (D.history disk.new)) }
    ensures sound { (state : State) (events : List Event) → IsStoreOf session.old.store state (D.history disk.old)
        → D.history disk.old ≡ Recorded events
        → IfErr result (λ status. status ≢ Status.Image) }
    ensures ends { IfErr result (λ status. IsTrue (is_stop status)) }
    ensures told { IfErr result (λ status. status ≡ Status.Image → TellsFailure text.new) }
    ensures cause { HasCause Status.Disk (D.faults disk.old) (D.faults disk.new) result }
{
    let tally = answer_generated(session, Generator::new(alloc, seed, count), disk, text)?;
    let committed = session.apply(disk, &Command::Commit, text)?;
    let shown = session.apply(disk, &Command::Show, text)?;
    write_summary(count, tally.done, tally.refused, text)?;
    write_reply(&shown, text)?;
    Ok(())
}

// Answers all lines of a generator, one after the other, and counts the answers.
fn answer_generated<D: Disk, L: Ledger, M: Ledger>(
    session: &mut Session<L, M>,
    mut generator: Generator,
    disk: &mut D,
    text: &mut Text,
) -> Result<Tally, Status>
    requires ready { IsReady session.old.store (D.history disk.old) (D.size disk.old) }
    requires few { length generator < 2 ^ 64 }
    requires blank { text.old ≡ [] }
    ensures run { (state : State) (events : List Event) → IsStoreOf session.old.store state (D.history disk.old)
        → D.history disk.old ≡ Recorded events
        → IfOk result (λ tally. AreRun state (lines_of generator) tally session.new.store events (D.history disk.new)) }
    ensures stopped { (state : State) (events : List Event) → IsStoreOf session.old.store state (D.history disk.old)
        → D.history disk.old ≡ Recorded events
        → IfErr result (λ status. StopsWithin state (lines_of generator) events (D.history disk.new)) }
    ensures sound { (state : State) (events : List Event) → IsStoreOf session.old.store state (D.history disk.old)
        → D.history disk.old ≡ Recorded events
        → IfErr result (λ status. status ≢ Status.Image) }
    ensures ready { OnOk result (IsReady session.new.store (D.history disk.new) (D.size disk.new)) }
    ensures ends { IfErr result (λ status. IsTrue (is_stop status)) }
    ensures told { IfErr result (λ status. status ≡ Status.Image → TellsFailure text.new) }
    ensures blank { OnOk result (text.new ≡ []) }
    ensures cause { HasCause Status.Disk (D.faults disk.old) (D.faults disk.new) result }
{
    let mut tally = Tally {
        done: 0,
        refused: 0,
    };
    'lines: loop {
        let Some(command) = generator.next() else {
            return Ok(tally);
        };
        let done = is_done(session, &command, disk, text)?;
        tally.count(done);
    }
}

// Does the command of a line or refuses it; says whether it was done.
fn is_done<D: Disk, L: Ledger, M: Ledger>(
    session: &mut Session<L, M>,
    command: &Command,
    disk: &mut D,
    text: &mut Text,
) -> Result<bool, Status>
    requires ready { IsReady session.old.store (D.history disk.old) (D.size disk.old) }
    requires line { IsLineOf (command_text command.now) command.now }
    requires blank { text.old ≡ [] }
    ensures answered { (state : State) (events : List Event) → IsStoreOf session.old.store state (D.history disk.old)
        → D.history disk.old ≡ Recorded events
        → IfOk result (λ done. IsAnswered state events (command_text command.now) done session.new.store
        (D.history disk.new)) }
    ensures so_far { (state : State) (events : List Event) → IsStoreOf session.old.store state (D.history disk.old)
        → D.history disk.old ≡ Recorded events
        → IsLineSoFar state (command_text command.now) events (D.history disk.new) }
    ensures sound { (state : State) (events : List Event) → IsStoreOf session.old.store state (D.history disk.old)
        → D.history disk.old ≡ Recorded events
        → IfErr result (λ status. status ≢ Status.Image) }
    ensures ready { OnOk result (IsReady session.new.store (D.history disk.new) (D.size disk.new)) }
    ensures ends { IfErr result (λ status. IsTrue (is_stop status)) }
    ensures told { IfErr result (λ status. status ≡ Status.Image → TellsFailure text.new) }
    ensures blank { OnOk result (text.new ≡ []) }
    ensures cause { HasCause Status.Disk (D.faults disk.old) (D.faults disk.new) result }
{
    let answer = session.apply(disk, command, text)?;
    Ok(tells_done(&answer))
}

// Whether an answer says that its command was done, and not refused.
fn tells_done(answer: &Answer) -> bool
    ensures { is_refused answer.now ≡ not result }
{
    match answer {
        Answer::Done => true,
        Answer::Commit(_) => true,
        Answer::Sub(_) => true,
        Answer::Extent(_) => true,
        Answer::Shown(_) => true,
        Answer::File { .. } => true,
        Answer::Owners(_) => true,
        Answer::Refused(_) => false,
    }
}
