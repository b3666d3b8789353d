// What was taken of a source and not handed out yet.
ghost use Rattle.std.specs.Prelude.{◌≡◌, ◌≢◌, ◌+◌, ◌-◌, ◌≤◌, ◌<◌, ◌↔◌, [], length, min, take, drop, vec_len, Err, IfOk};
ghost use Rattle.std.specs.Prelude.{OnOk, OnErr, IsTrue};
ghost use Rattle.std.specs.List.{slice_range};
ghost use Rattle.std.specs.Borrow.{sem};
ghost use Rattle.std.specs.Io.BufRead.{Rests};
ghost use Rattle.std.specs.Io.KnownBytes.{prepend_known, IsAtEnd};
ghost use Rattle.qg_device.specs.Cause.{HasCause};
ghost use Rattle.qg_grammar.specs.ScriptText.{longest_script};
ghost use Rattle.qg_script.specs.Feeding.{IsWithinLimit, within_limit, handed_out, TakesMore};

use crate::{Line, LineFault};
use qg_edge::{EdgeFault, Source};
use std::alloc::{AllocError, Global};
use std::marker::Model;

/// The most bytes that a script may have.
const LONGEST_SCRIPT: u64 = 67108864;

/// The most bytes that a buffer has: one more than a script may have.
const LONGEST_BUFFER: usize = LONGEST_SCRIPT as usize + 1;

/// The bytes that a buffer has at first.
const FIRST_BUFFER: usize = 8192;

/// What was taken of a source and not handed out yet as lines (this project's own). A contract sees
/// how many bytes were taken, and those of them that were not handed out.
///
/// These are the bytes of a buffer from `handed` to `filled`. The source writes straight behind them, and
/// a line is lent as it lies there, so no byte of it is copied again. They move to the front only where no
/// room is left behind them, and where they fill half of the buffer or more, it is doubled first. So half
/// of it is free after each move, but for one to the longest buffer, which no script fills. That half is
/// taken before the next move, which copies each byte of the buffer twice at most: for each byte that is
/// taken, four are copied at most on average, however long the lines are.
#[derive(Drop)]
pub struct Feed {
    bytes: Vec<u8>,
    handed: usize,
    filled: usize,
    taken: u64,
}

impl Model for Feed {
    ghost use Rattle.std.specs.Prelude.{vec_len};
    ghost use Rattle.std.specs.List.{slice_range};
    ghost use Rattle.qg_script.specs.Feeding.{Feeding, IsFed};

    ghost Value = { Feeding };

    ghost view = { λ f. record { taken = f.taken; rest = slice_range f.bytes.items f.handed f.filled } };

    ghost invariant = { λ f. IsFed (vec_len f.bytes) f.handed f.filled
        (record { taken = f.taken; rest = slice_range f.bytes.items f.handed f.filled }) };
}

impl Feed {
    ghost use Rattle.qg_script.specs.contracts.feed.Feed.{the_row};

    /// A feed that has taken nothing yet. It takes no memory.
    pub fn new(alloc: Global) -> Feed
        ensures { result ≡ record { taken = 0; rest = [] } }
    {
        Feed {
            bytes: Vec::new(alloc),
            handed: 0,
            filled: 0,
            taken: 0,
        }
    }

    /// The bytes held that lie within the longest script.
    pub(crate) fn within_limit(&self) -> &[u8]
        ensures bytes { result.now ≡ within_limit self.now }
        ensures within { IsWithinLimit self.now }
    {
        let past = usize::from(self.taken > LONGEST_SCRIPT);
        &self.bytes[self.handed..self.filled - past]
    }

    /// Whether more was taken than a script may have.
    pub(crate) fn is_past(&self) -> bool
        ensures { IsTrue result ↔ (longest_script < self.now.taken) }
    {
        self.taken > LONGEST_SCRIPT
    }

    /// Hands out the first `end` bytes as a line, and with them the newline behind them, if one is held.
    pub(crate) fn hand_out(&mut self, end: usize) -> &[u8]
        requires bound { end ≤ length self.old.rest }
        requires within { IsWithinLimit (handed_out self.old end) }
        ensures line { result.now ≡ take end self.old.rest }
        ensures* leaves { sem 𝓛 (Rests the_row self.entry (λ left. left ≡ handed_out self.entry.now end)) }
    {
        let start = self.handed;
        self.handed = self.filled.min(start + end + 1);
        &self.bytes[start..start + end]
    }

    /// Takes more bytes, behind those that are held, and none only at the end of the source. An `Err`
    /// takes none.
    pub(crate) fn fill<S: Source>(&mut self, source: &mut S) -> Result<usize, LineFault>
        requires { self.old.taken ≤ longest_script }
        ensures takes { IfOk result (λ count.
            TakesMore self.old self.new (S.bytes_left source.old) (S.bytes_left source.new) count) }
        ensures within { IsWithinLimit self.new }
        ensures err { OnErr result (self.new ≡ self.old) }
        ensures err_source { OnErr result (S.bytes_left source.new ≡ S.bytes_left source.old) }
        ensures not_long { result ≢ Err LineFault.TooLong }
        ensures cause { HasCause LineFault.Source (S.faults source.old) (S.faults source.new) result }
    {
        let held = self.filled - self.handed;
        self.handed = make_room(&mut self.bytes, self.handed, self.filled)?;
        self.filled = self.handed + held;
        let most = (LONGEST_SCRIPT + 1 - self.taken) as usize;
        let end = self.bytes.len().min(self.filled + most);
        let count = take_between(source, &mut self.bytes, self.filled, end)?;
        self.filled += count;
        self.taken += count as u64;
        Ok(count)
    }
}

// Makes room in a buffer behind what it holds from `start` to `end`, and answers where that begins then.
fn make_room(bytes: &mut Vec<u8>, start: usize, end: usize) -> Result<usize, AllocError>
    requires order { start ≤ end }
    requires bound { end ≤ vec_len bytes.old }
    requires most { end - start ≤ longest_script }
    requires size { vec_len bytes.old ≤ longest_script + 1 }
    ensures held { IfOk result (λ place. slice_range bytes.new.items place (place + (end - start))
        ≡ slice_range bytes.old.items start end) }
    ensures room { IfOk result (λ place. place + (end - start) < vec_len bytes.new) }
    ensures size { vec_len bytes.new ≤ longest_script + 1 }
    ensures err { OnErr result (bytes.new.items ≡ bytes.old.items) }
{
    let size = bytes.len();
    if end < size {
        return Ok(start);
    }
    let held = end - start;
    if held >= size / 2 {
        bytes.resize((2 * size).clamp(FIRST_BUFFER, LONGEST_BUFFER), 0)?;
    }
    bytes.copy_within(start..end, 0);
    Ok(0)
}

// Takes bytes of a source into those of a buffer from `start` to `end`, and answers how many.
fn take_between<S: Source>(
    source: &mut S,
    bytes: &mut Vec<u8>,
    start: usize,
    end: usize,
) -> Result<usize, LineFault>
    requires order { start < end }
    requires bound { end ≤ vec_len bytes.old }
    ensures size { vec_len bytes.new ≡ vec_len bytes.old }
    ensures bound { IfOk result (λ count. start + count ≤ end) }
    ensures before { take start bytes.new.items ≡ take start bytes.old.items }
    ensures taken { IfOk result (λ count. S.bytes_left source.old
        ≡ prepend_known (slice_range bytes.new.items start (start + count)) (S.bytes_left source.new)) }
    ensures none_only_at_end { IfOk result (λ count. count ≡ 0 → IsAtEnd (S.bytes_left source.old)) }
    ensures err { OnErr result (S.bytes_left source.new ≡ S.bytes_left source.old) }
    ensures not_long { result ≢ Err LineFault.TooLong }
    ensures cause { HasCause LineFault.Source (S.faults source.old) (S.faults source.new) result }
{
    match source.take(&mut bytes[start..end]) {
        Ok(count) => Ok(count),
        Err(EdgeFault::Failed) => Err(LineFault::Source),
        Err(EdgeFault::NoMemory) => Err(LineFault::NoMemory),
    }
}
