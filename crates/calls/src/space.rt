// Calls on the runs and slots of an image.
ghost use Rattle.std.specs.Prelude.{◌≡◌, IfOk};

use call_lines::{Fault, told, told_if, told_number};
use qg_num::Address;
use qg_space::Space;
use std::alloc::Global;

/// An image of 64 node slots of 4096 bytes and of 16 data sectors, of which nothing is held yet.
#[tactic(auto, unfolding(qg_super::specs::Places::is_served))]
pub(crate) fn fresh(alloc: Global) -> Result<Space, Fault> {
    Ok(Space::new(alloc, 64, 4096, 16)?)
}

/// Takes the first free run of so many sectors.
fn take_run(space: &mut Space, sectors: u64) -> Result<Option<u64>, Fault> {
    match space.first_run(sectors) {
        None => Ok(None),
        Some(at) => {
            space.take_run(at, sectors)?;
            Ok(Some(at.value()))
        }
    }
}

/// Gives back a run, if it is there.
fn give_run(space: &mut Space, at: Address, sectors: u64) -> bool {
    let has = space.has_run(at, sectors);
    if has {
        space.give_run(at, sectors);
    }
    has
}

/// Gives back a slot, if it is there.
fn give_slot(space: &mut Space, at: Address) -> bool {
    let has = space.has_slot(at);
    if has {
        space.give_slot(at);
    }
    has
}

/// Makes a call.
pub(crate) fn answer(
    alloc: Global,
    space: &mut Space,
    verb: &str,
    numbers: &[u64],
) -> Result<String, Fault> {
    let number = match (verb, numbers) {
        ("fresh", []) => {
            *space = fresh(alloc)?;
            return told(alloc, "done");
        }
        ("commit", []) => {
            space.committed();
            return told(alloc, "done");
        }
        ("give-run", [at, sectors]) => {
            return told_if(alloc, give_run(space, Address::new(*at), *sectors));
        }
        ("has-run", [at, sectors]) => {
            return told_if(alloc, space.has_run(Address::new(*at), *sectors));
        }
        ("give-slot", [at]) => return told_if(alloc, give_slot(space, Address::new(*at))),
        ("take-run", [sectors]) => take_run(space, *sectors)?,
        ("first-run", [sectors]) => space.first_run(*sectors).map(|at| at.value()),
        ("take-slot", []) => space.take_slot()?.map(|at| at.value()),
        ("taken-bytes", []) => Some(space.taken_bytes()),
        ("taken-slots", []) => Some(space.taken_slots()),
        ("free-slots", []) => Some(space.free_slots()),
        _ => return Err(Fault::Call),
    };
    told_number(alloc, number)
}
