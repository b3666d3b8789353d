// Addresses that were touched, each with who reached what begins there.
ghost use Rattle.std.specs.Prelude.{◌≡◌, [], OnErr, OnOk};
ghost use Rattle.std.specs.List.Sorted.{IsStrictlyIncreasing};
ghost use Rattle.qg_image.specs.Table.{has_key};
ghost use Rattle.qg_trace.specs.Touched.{touched, IsTrace};

use qg_num::{Address, NoMemory, OwnerList};
use std::alloc::Global;
use std::collections::BTreeMap;
use std::marker::Model;
use std::mem;

/// What began at an address when it was first touched (fs/btrfs/qgroup.c, "qgroup extent record").
#[derive(Drop)]
pub struct TraceEntry {
    /// Its length in bytes.
    pub bytes: u64,
    /// The subvolumes that reached it at the last commit, ascending.
    pub owners: OwnerList,
}

/// The addresses, in bytes, that were touched since the last commit, each with what began there and who reached it
/// (fs/btrfs/qgroup.c, "dirty extents"). A contract sees a list, ascending by address.
#[derive(Drop)]
pub struct Trace {
    alloc: Global,
    noted: BTreeMap<u64, TraceEntry>,
}

impl Model for Trace {
    ghost use Rattle.std.specs.Prelude.{List, ℕ};
    ghost use Rattle.qg_trace.specs.declared.trace.TraceEntry.{TraceEntry};
    ghost use Rattle.qg_trace.specs.Touched.{IsTrace};

    ghost Value = { List (ℕ × TraceEntry) };

    ghost view = { λ trace. trace.noted.entries };

    ghost invariant = { λ trace. IsTrace trace.noted.entries };
}

impl Trace {
    /// Nothing is touched yet. It takes no memory.
    pub fn new(alloc: Global) -> Trace
        ensures { result ≡ [] }
    {
        Trace {
            alloc,
            noted: BTreeMap::new(alloc),
        }
    }

    /// Notes what begins at an address, its length in bytes, and who reached it at the last commit. Where the address
    /// was touched before, that stays as it is, and where memory is refused, nothing has changed.
    pub fn touch(&mut self, at: Address, bytes: u64, owners: OwnerList) -> Result<(), NoMemory>
        requires { IsStrictlyIncreasing owners }
        ensures ok { OnOk result (self.new ≡ touched at (record { bytes = bytes; owners = owners }) self.old) }
        ensures err { OnErr result (self.new ≡ self.old) }
    {
        note(&mut self.noted, at, TraceEntry { bytes, owners })
    }

    /// Whether an address was touched.
    pub fn has(&self, at: Address) -> bool
        ensures { result ≡ has_key at self.now }
    {
        has_entry(&self.noted, at)
    }

    /// All that is noted, by address.
    pub fn entries(&self) -> &BTreeMap<u64, TraceEntry>
        ensures same { result.now.entries ≡ self.now }
        ensures sound { IsTrace self.now }
    {
        &self.noted
    }

    /// Nothing is touched any more, as after a commit. It takes no memory.
    pub fn clear(&mut self)
        ensures { self.new ≡ [] }
    {
        self.noted.clear();
    }

    /// Gives out all that is noted; nothing is touched any more. It takes no memory.
    pub fn take(&mut self) -> Trace
        ensures taken { result ≡ self.old }
        ensures left { self.new ≡ [] }
    {
        Trace {
            alloc: self.alloc,
            noted: mem::replace(&mut self.noted, BTreeMap::new(self.alloc)),
        }
    }
}

// Whether something is noted at an address.
fn has_entry(noted: &BTreeMap<u64, TraceEntry>, at: Address) -> bool
    ensures { result ≡ has_key at noted.now.entries }
{
    noted.contains_key(&at.value())
}

// Notes an entry at an address, where nothing is noted yet.
fn note(
    noted: &mut BTreeMap<u64, TraceEntry>,
    at: Address,
    entry: TraceEntry,
) -> Result<(), NoMemory>
    requires sound { IsTrace noted.old.entries }
    requires ascending { IsStrictlyIncreasing entry.owners }
    ensures ok { OnOk result (noted.new.entries ≡ touched at entry noted.old.entries) }
    ensures err { OnErr result (noted.new.entries ≡ noted.old.entries) }
    ensures sound { IsTrace noted.new.entries }
{
    if has_entry(noted, at) {
        return Ok(());
    }
    noted.insert(at.value(), entry)?;
    Ok(())
}
