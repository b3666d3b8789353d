// An open store with the counts of its steps.
ghost use Rattle.std.specs.Prelude.{◌≡◌, ◌≢◌, ◌↔◌, ◌⊎◌, ◌++◌, [], false, List, IfOk, IfErr, OnOk, IsTrue};
ghost use Rattle.qg_device.specs.Cause.{HasCause};
ghost use Rattle.qg_device.specs.History.{Event, Recorded};
ghost use Rattle.qg_num.specs.declared.fault.BlockFault.{BlockFault};
ghost use Rattle.qg_num.specs.declared.fault.Stop.TheVariants.{Aborted};
ghost use Rattle.qg_grammar.specs.FailureText.{broken_text};
ghost use Rattle.qg_grammar.specs.ScriptText.{is_in_grammar};
ghost use Rattle.qg_image.specs.State.{State};
ghost use Rattle.qg_store.specs.Answering.{AnswersOn, IsDoneSoFar};
ghost use Rattle.qg_store.specs.Stored.{IsIntact, IsReady, IsStoreOf, is_of_image, sizes_stored};
ghost use Rattle.qg_program.specs.Ends.{is_stop};
ghost use Rattle.qg_program.specs.Putting.{TellsFailure, TellsStop, TellsWhy};

use crate::Status;
use qg_disk::Disk;
use qg_num::{Address, Answer, Command, NoMemory, Rule, Steps, Stop};
use qg_script::{Text, write_broken};
use qg_store::Store;
use std::sync::ledger::Ledger;

/// An open store, and how many owners were looked up and how many nodes asked for.
#[derive(Drop)]
pub(crate) struct Session<L: Ledger, M: Ledger> {
    pub(crate) store: Store,
    pub(crate) looks: Steps<L>,
    pub(crate) reads: Steps<M>,
}

impl<L: Ledger, M: Ledger> Session<L, M> {
    /// Does a command or refuses it; `Err` says how the program ends. Where a rule of the image is found broken, which
    /// doesn't come over a disk that tells, the text gets the line that says so; else it stays as it is.
    pub(crate) fn apply<D: Disk>(
        &mut self,
        disk: &mut D,
        command: &Command,
        text: &mut Text,
    ) -> Result<Answer, Status>
        requires ready { IsReady self.old.store (D.history disk.old) (D.size disk.old) }
        requires numbers { IsTrue (is_in_grammar command.now) }
        requires blank { text.old ≡ [] }
        ensures step { (state : State) (events : List Event) → IsStoreOf self.old.store state (D.history disk.old)
            → D.history disk.old ≡ Recorded events
            → IfOk result (λ answer. AnswersOn state command.now answer self.new.store.kept events (D.history
            disk.new)) }
        ensures so_far { (state : State) (events : List Event) → IsStoreOf self.old.store state (D.history disk.old)
            → D.history disk.old ≡ Recorded events
            → IsDoneSoFar state command.now events (D.history disk.new) }
        ensures sound { (state : State) (events : List Event) → IsStoreOf self.old.store state (D.history disk.old)
            → D.history disk.old ≡ Recorded events
            → IfErr result (λ status. status ≢ Status.Image) }
        ensures ready { OnOk result (IsReady self.new.store (D.history disk.new) (D.size disk.new)) }
        ensures ends { IfErr result (λ status. IsTrue (is_stop status)) }
        ensures told { IfErr result (λ status. status ≡ Status.Image → TellsFailure text.new) }
        ensures why { IfErr result (λ status. status ≡ Status.Image → TellsWhy (sizes_stored self.old.store)
            (D.size disk.old) self.new.store.stopped text.new) }
        ensures intact { IfErr result (λ status. status ≡ Status.Image
            → IsIntact command.now self.old.store.kept self.new.store.kept (D.history disk.old)
            (D.history disk.new)) }
        ensures blank { OnOk result (text.new ≡ []) }
        ensures cause { HasCause Status.Disk (D.faults disk.old) (D.faults disk.new) result }
    {
        match self
            .store
            .apply(disk, command, &mut self.looks, &mut self.reads)
        {
            Ok(answer) => Ok(answer),
            Err(stop) => Err(end_of(&stop, text)),
        }
    }
}

// How the program ends for a stop; one for a rule that is broken adds the line that says so to a text.
fn end_of(stop: &Stop, text: &mut Text) -> Status
    requires running { (cause : BlockFault) → stop.now ≡ Aborted cause → ⊥ }
    requires blank { text.old ≡ [] }
    ensures ends { IsTrue (is_stop result) }
    ensures disk { (result ≡ Status.Disk) ↔ (stop.now ≡ Stop.Disk) }
    ensures sound { is_of_image stop.now ≡ false → result ≢ Status.Image }
    ensures told { result ≡ Status.Image → TellsStop stop.now text.new }
{
    match stop {
        Stop::NoMemory => Status::NoMemory,
        Stop::Disk => Status::Disk,
        Stop::Image { rule, address } => end_of_image(*rule, *address, text),
        Stop::Aborted(_) => unreachable!(),
    }
}

// Adds the line that says that a rule is broken at an address; says how the program ends.
fn end_of_image(rule: Rule, address: Address, text: &mut Text) -> Status
    ensures ends { (result ≡ Status.Image) ⊎ (result ≡ Status.NoMemory) }
    ensures told { result ≡ Status.Image → text.new ≡ text.old ++ broken_text rule address }
{
    match write_broken(rule, address, text) {
        Ok(()) => Status::Image,
        Err(NoMemory) => Status::NoMemory,
    }
}
