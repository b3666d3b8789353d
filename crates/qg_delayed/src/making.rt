// The edits of one entry, made in the book below.
ghost use Rattle.std.specs.Prelude.{◌≡◌, ◌≤◌, ◌⊎◌, [], ◌∷◌, replicate, IsSome, IfErr, OnOk};
ghost use Rattle.qg_device.specs.Cause.{HasCause};
ghost use Rattle.qg_delayed.specs.Flushing.{come_in, comes, go_in, goes, has_new_mark};
ghost use Rattle.qg_delayed.specs.LookUps.{Unwritten};
ghost use Rattle.qg_delayed.specs.Making.{CanMake, HasMade, LeftByEdits};

use crate::{Change, Edit, Entry, RecordBook};
use qg_disk::Disk;
use qg_num::{Address, BlockFault, Steps};
use std::sync::ledger::Ledger;

/// Makes what comes to an address.
pub(crate) fn make_comes<G, D: Disk, L: Ledger, B: RecordBook<G, D, L>>(
    land: &mut G,
    disk: &mut D,
    at: Address,
    entry: &Entry,
    book: &mut B,
    reads: &mut Steps<L>,
) -> Result<(), BlockFault>
    requires { CanMake B.stands B.holds B.has_room B.edits (come_in at entry.now)
        book.old land.old disk.old }
    ensures made { OnOk result (HasMade B.stands B.holds B.has_room B.edits (come_in at entry.now)
        book.old land.old disk.old book.new land.new disk.new) }
    ensures stands { B.stands book.new land.new disk.new }
    ensures leaves { LeftByEdits B.edits land.old disk.old land.new disk.new }
    ensures unwritten { Unwritten D.history D.size disk.old disk.new }
    ensures no_image { IsSome (B.holds book.old land.old disk.old)
        → IfErr result (λ fault. (fault ≡ BlockFault.NoMemory) ⊎ (fault ≡ BlockFault.Disk)) }
    ensures cause { HasCause BlockFault.Disk (D.faults disk.old) (D.faults disk.new) result }
    ensures rise { reads.old ≤ reads.new }
{
    let changes = entry.changes.as_slice();
    for change in changes {
        let edit = Edit::Add {
            at,
            what: entry.what_there(),
            reference: change.reference,
        };
        make_times(land, disk, &edit, comes(entry.begun, change), book, reads)?;
    }
    Ok(())
}

/// Makes what goes from an address.
pub(crate) fn make_goes<G, D: Disk, L: Ledger, B: RecordBook<G, D, L>>(
    land: &mut G,
    disk: &mut D,
    at: Address,
    entry: &Entry,
    book: &mut B,
    reads: &mut Steps<L>,
) -> Result<(), BlockFault>
    requires { CanMake B.stands B.holds B.has_room B.edits (go_in at entry.now)
        book.old land.old disk.old }
    ensures made { OnOk result (HasMade B.stands B.holds B.has_room B.edits (go_in at entry.now)
        book.old land.old disk.old book.new land.new disk.new) }
    ensures stands { B.stands book.new land.new disk.new }
    ensures leaves { LeftByEdits B.edits land.old disk.old land.new disk.new }
    ensures unwritten { Unwritten D.history D.size disk.old disk.new }
    ensures no_image { IsSome (B.holds book.old land.old disk.old)
        → IfErr result (λ fault. (fault ≡ BlockFault.NoMemory) ⊎ (fault ≡ BlockFault.Disk)) }
    ensures cause { HasCause BlockFault.Disk (D.faults disk.old) (D.faults disk.new) result }
    ensures rise { reads.old ≤ reads.new }
{
    let changes = entry.changes.as_slice();
    for change in changes {
        let edit = Edit::Drop {
            at,
            reference: change.reference,
        };
        make_times(land, disk, &edit, goes(entry.begun, change), book, reads)?;
    }
    Ok(())
}

/// The mark is there that the record doesn't have by then.
pub(crate) fn has_new_mark(entry: &Entry) -> bool
    ensures { result ≡ has_new_mark entry.now }
{
    entry.full && (entry.begun || !entry.was_full)
}

// How often the reference of a change comes.
fn comes(begun: bool, change: &Change) -> u32
    ensures { result ≡ comes begun change.entry.now }
{
    if begun {
        change.now
    } else {
        change.now.saturating_sub(change.below)
    }
}

// How often it goes.
fn goes(begun: bool, change: &Change) -> u32
    ensures { result ≡ goes begun change.entry.now }
{
    if begun {
        change.below
    } else {
        change.below.saturating_sub(change.now)
    }
}

// Makes the same edit so many times.
fn make_times<G, D: Disk, L: Ledger, B: RecordBook<G, D, L>>(
    land: &mut G,
    disk: &mut D,
    edit: &Edit,
    times: u32,
    book: &mut B,
    reads: &mut Steps<L>,
) -> Result<(), BlockFault>
    requires { CanMake B.stands B.holds B.has_room B.edits (replicate times edit.now)
        book.old land.old disk.old }
    ensures made { OnOk result (HasMade B.stands B.holds B.has_room B.edits (replicate times edit.now)
        book.old land.old disk.old book.new land.new disk.new) }
    ensures stands { B.stands book.new land.new disk.new }
    ensures leaves { LeftByEdits B.edits land.old disk.old land.new disk.new }
    ensures unwritten { Unwritten D.history D.size disk.old disk.new }
    ensures no_image { IsSome (B.holds book.old land.old disk.old)
        → IfErr result (λ fault. (fault ≡ BlockFault.NoMemory) ⊎ (fault ≡ BlockFault.Disk)) }
    ensures cause { HasCause BlockFault.Disk (D.faults disk.old) (D.faults disk.new) result }
    ensures rise { reads.old ≤ reads.new }
{
    for made in 0..times {
        make(land, disk, edit, book, reads)?;
    }
    Ok(())
}

/// Makes one edit.
pub(crate) fn make<G, D: Disk, L: Ledger, B: RecordBook<G, D, L>>(
    land: &mut G,
    disk: &mut D,
    edit: &Edit,
    book: &mut B,
    reads: &mut Steps<L>,
) -> Result<(), BlockFault>
    requires { CanMake B.stands B.holds B.has_room B.edits (edit.now ∷ [])
        book.old land.old disk.old }
    ensures made { OnOk result (HasMade B.stands B.holds B.has_room B.edits (edit.now ∷ [])
        book.old land.old disk.old book.new land.new disk.new) }
    ensures stands { B.stands book.new land.new disk.new }
    ensures leaves { B.edits land.old disk.old land.new disk.new }
    ensures unwritten { Unwritten D.history D.size disk.old disk.new }
    ensures no_image { IsSome (B.holds book.old land.old disk.old)
        → IfErr result (λ fault. (fault ≡ BlockFault.NoMemory) ⊎ (fault ≡ BlockFault.Disk)) }
    ensures cause { HasCause BlockFault.Disk (D.faults disk.old) (D.faults disk.new) result }
    ensures rise { reads.old ≤ reads.new }
{
    match edit {
        Edit::Add {
            at,
            what,
            reference,
        } => book.add(land, disk, *at, *what, *reference, reads),
        Edit::Drop { at, reference } => book.drop_one(land, disk, *at, *reference, reads),
        Edit::SetFull { at } => book.set_full(land, disk, *at, reads),
    }
}
