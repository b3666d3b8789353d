// A line is answered.
ghost use Rattle.std.specs.Prelude.{◌≡◌, ◌≢◌, List, IfErr, OnOk, IsTrue};
ghost use Rattle.qg_device.specs.Cause.{HasCause};
ghost use Rattle.qg_device.specs.History.{Event, Recorded};
ghost use Rattle.qg_image.specs.State.{State};
ghost use Rattle.qg_store.specs.Stored.{IsReady, IsStoreOf};
ghost use Rattle.qg_program.specs.Ends.{is_stop};
ghost use Rattle.qg_program.specs.Putting.{IsReplyText, TellsFailure};
ghost use Rattle.qg_program.specs.Turning.{IsLineSoFar, IsReply};

use crate::Status;
use crate::session::Session;
use qg_disk::Disk;
use qg_script::{Text, parse_line, write_no_line, write_reply};
use std::alloc::Global;
use std::sync::ledger::Ledger;

/// Does or refuses the command of a line, if it has one, and makes a text the reply; `Err` says how the program ends.
/// Where a rule of the image is found broken the text is the line that says so.
pub(crate) fn answer_line<D: Disk, L: Ledger, M: Ledger>(
    alloc: Global,
    session: &mut Session<L, M>,
    disk: &mut D,
    line: &[u8],
    text: &mut Text,
) -> Result<(), Status>
    requires { IsReady session.old.store (D.history disk.old) (D.size disk.old) }
    ensures reply { (state : State) (events : List Event) → IsStoreOf session.old.store state (D.history disk.old)
        → D.history disk.old ≡ Recorded events
        → OnOk result (IsReply state events line.now text.new session.new.store (D.history disk.new)) }
    ensures so_far { (state : State) (events : List Event) → IsStoreOf session.old.store state (D.history disk.old)
        → D.history disk.old ≡ Recorded events
        → IsLineSoFar state line.now events (D.history disk.new) }
    ensures sound { (state : State) (events : List Event) → IsStoreOf session.old.store state (D.history disk.old)
        → D.history disk.old ≡ Recorded events
        → IfErr result (λ status. status ≢ Status.Image) }
    ensures ready { OnOk result (IsReady session.new.store (D.history disk.new) (D.size disk.new)) }
    ensures ends { IfErr result (λ status. IsTrue (is_stop status)) }
    ensures replied { OnOk result (IsReplyText text.new) }
    ensures told { IfErr result (λ status. status ≡ Status.Image → TellsFailure text.new) }
    ensures cause { HasCause Status.Disk (D.faults disk.old) (D.faults disk.new) result }
{
    text.clear();
    match parse_line(alloc, line)? {
        Some(command) => {
            let answer = session.apply(disk, &command, text)?;
            write_reply(&answer, text)?;
        }
        None => write_no_line(text)?,
    }
    Ok(())
}
