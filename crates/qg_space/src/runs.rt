// Runs of sectors that the present state or the last commit holds.
ghost use Rattle.std.specs.Prelude.{◌≡◌, ℕ, ◌+◌, ◌*◌, ◌<◌, ◌≤◌, ◌%◌, ◌&&◌, ◌≢◌, map, length, take, slice_index_or};
ghost use Rattle.std.specs.Prelude.{IsTrue, IfOk, OnOk, OnErr};
ghost use Rattle.std.specs.List.{All, AllWithin, Contains, filter, list_any};
ghost use Rattle.std.specs.List.Sorted.{IsNonDecreasingBy};
ghost use Rattle.qg_super.specs.declared.sizes.Sizes.{Sizes};
ghost use Rattle.qg_super.specs.Places.{is_served, data_begin, sector};
ghost use Rattle.qg_image.specs.declared.element.Element.{Element};
ghost use Rattle.qg_image.specs.Counts.{bytes_of};
ghost use Rattle.qg_space.specs.Run.{Run};
ghost use Rattle.qg_space.specs.Holding.{AscendApart, is_clear, first_clear, is_that_run, with_run, without_run};
ghost use Rattle.qg_space.specs.Holding.{without_runs};
ghost use Rattle.qg_space.specs.Lying.{LieApart, extents_of, present_of, held_of, given_back, is_used, with_held};
ghost use Rattle.qg_space.specs.Lying.{run_of_both, end_of_last, IsPackedFront, SameBefore};

use crate::run::Run;
use qg_image::Element;
use qg_num::{Address, Sequence};
use qg_super::{DATA_BEGIN, Sizes};
use std::alloc::{AllocError, Global};

/// The runs of extents, each held by the present state and by the last commit, and how many of the first ones are
/// packed.
pub(crate) fn runs_of_both(
    alloc: Global,
    sizes: &Sizes,
    extents: &[Element],
) -> Result<(Vec<Run>, usize), AllocError>
    requires served { IsTrue (is_served sizes.now) }
    requires apart { AscendApart sizes.now data_begin extents.now }
    ensures runs { IfOk result (λ made. made.0.items ≡ map run_of_both extents.now) }
    ensures front { IfOk result (λ made. IsPackedFront made.0.items made.1) }
    ensures most { (extent : Element) → IfOk result (λ made. made.1 < length extents.now
        → (slice_index_or extents.now made.1 extent).address ≢ end_of_last data_begin (take made.1 extents.now)) }
{
    let mut runs = Vec::with_capacity(alloc, extents.len())?;
    let mut packed = 0;
    let mut end = DATA_BEGIN;
    for (number, extent) in extents.iter().enumerate() {
        runs.push(Run::new(extent, true, true))?;
        if packed == number && extent.address.value() == end {
            packed += 1;
            end = extent.address.value() + extent.bytes;
        }
    }
    Ok((runs, packed))
}

/// How many runs begin before an address.
pub(crate) fn runs_before(runs: &[Run], at: Address) -> usize
    requires { IsNonDecreasingBy (λ run. run.extent.address) runs.now }
    ensures bound { result ≤ length runs.now }
    ensures before { AllWithin (λ run. run.extent.address < at) runs.now 0 result }
    ensures others { AllWithin (λ run. at ≤ run.extent.address) runs.now result (length runs.now) }
{
    runs.partition_point(|run| run.extent().address < at)
}

/// The run of so many bytes with the least address that overlaps none of some runs, of which the first ones are packed.
pub(crate) fn first_gap(sizes: &Sizes, runs: &[Run], packed: usize, bytes: u64) -> Option<Address>
    requires served { IsTrue (is_served sizes.now) }
    requires apart { LieApart sizes.now data_begin runs.now }
    requires front { IsPackedFront runs.now packed }
    requires some { 0 < bytes }
    requires whole { bytes % sector ≡ 0 }
    requires few { bytes ≤ sizes.now.sectors * sector }
    ensures { result ≡ first_clear sizes.now (extents_of runs.now) bytes }
{
    let mut from = end_of_first(sizes, runs, packed);
    let later = &runs[packed..];
    for run in later {
        let extent = run.extent();
        if from + bytes <= extent.address.value() {
            return Some(Address::new(from));
        }
        from = extent.address.value() + extent.bytes;
    }
    if from + bytes <= sizes.total_bytes() {
        Some(Address::new(from))
    } else {
        None
    }
}

/// Where the first runs end, so many. With none of them this is where the data area begins.
fn end_of_first(sizes: &Sizes, runs: &[Run], count: usize) -> u64
    requires served { IsTrue (is_served sizes.now) }
    requires apart { LieApart sizes.now data_begin runs.now }
    requires bound { count ≤ length runs.now }
    ensures { result ≡ end_of_last data_begin (take count (extents_of runs.now)) }
{
    if count == 0 {
        return DATA_BEGIN;
    }
    let last = runs[count - 1].extent();
    last.address.value() + last.bytes
}

/// How many of the first runs are packed; so many are known to be.
pub(crate) fn packed_runs(sizes: &Sizes, runs: &[Run], known: usize) -> usize
    requires served { IsTrue (is_served sizes.now) }
    requires apart { LieApart sizes.now data_begin runs.now }
    requires known { IsPackedFront runs.now known }
    ensures front { IsPackedFront runs.now result }
    ensures most { (run : Run) → result < length runs.now
        → (slice_index_or runs.now result run).extent.address ≢ end_of_last data_begin
        (take result (extents_of runs.now)) }
{
    let mut end = end_of_first(sizes, runs, known);
    for number in known..runs.len() {
        let extent = runs[number].extent();
        if extent.address.value() != end {
            return number;
        }
        end = extent.address.value() + extent.bytes;
    }
    runs.len()
}

/// Puts in a run that overlaps none of those there, held by the present state. The answer is how many runs lie before
/// it.
pub(crate) fn put_run(
    sizes: &Sizes,
    runs: &mut Vec<Run>,
    extent: Element,
) -> Result<usize, AllocError>
    requires served { IsTrue (is_served sizes.now) }
    requires apart { LieApart sizes.now data_begin runs.old.items }
    requires clear { IsTrue (is_clear sizes.now (extents_of runs.old.items) extent.address extent.bytes) }
    ensures apart { LieApart sizes.now data_begin runs.new.items }
    ensures present { OnOk result (present_of runs.new.items ≡ with_run extent (present_of runs.old.items)) }
    ensures held { OnOk result (held_of runs.new.items ≡ held_of runs.old.items) }
    ensures before { IfOk result (λ place. SameBefore place runs.old.items runs.new.items) }
    ensures err { OnErr result (runs.new.items ≡ runs.old.items) }
{
    let place = runs_before(runs, extent.address);
    runs.insert(place, Run::new(&extent, true, false))?;
    Ok(place)
}

/// Takes a run of so many bytes from the present state. It stays while the last commit holds it. The answer is how many
/// runs lie before it.
pub(crate) fn take_out_run(sizes: &Sizes, runs: &mut Vec<Run>, at: Address, bytes: u64) -> usize
    requires apart { LieApart sizes.now data_begin runs.old.items }
    requires there { IsTrue (list_any (is_that_run at bytes) (present_of runs.old.items)) }
    ensures apart { LieApart sizes.now data_begin runs.new.items }
    ensures present { present_of runs.new.items ≡ without_run at bytes (present_of runs.old.items) }
    ensures held { held_of runs.new.items ≡ held_of runs.old.items }
    ensures before { SameBefore result runs.old.items runs.new.items }
{
    let place = runs_before(runs, at);
    if runs[place].is_held() {
        runs[place].set_present(false);
    } else {
        runs.remove(place);
    }
    place
}

/// Takes some runs from the present state. Each stays while the last commit holds it. So many of the first runs were
/// packed, and the answer is how many are.
pub(crate) fn take_out_runs(
    sizes: &Sizes,
    runs: &mut Vec<Run>,
    packed: usize,
    extents: &[Element],
) -> usize
    requires served { IsTrue (is_served sizes.now) }
    requires apart { LieApart sizes.now data_begin runs.old.items }
    requires front { IsPackedFront runs.old.items packed }
    requires there { All (Contains (present_of runs.old.items)) extents.now }
    ensures apart { LieApart sizes.now data_begin runs.new.items }
    ensures present { present_of runs.new.items ≡ without_runs extents.now (present_of runs.old.items) }
    ensures held { held_of runs.new.items ≡ held_of runs.old.items }
    ensures front { IsPackedFront runs.new.items result }
{
    match extents {
        [] => packed,
        [one] => packed.min(take_out_run(sizes, runs, one.address, one.bytes)),
        _ => {
            take_out_many(sizes, runs, extents);
            packed_runs(sizes, runs, 0)
        }
    }
}

/// Takes some runs from the present state, by one pass over all. Each stays while the last commit holds it.
fn take_out_many(sizes: &Sizes, runs: &mut Vec<Run>, extents: &[Element])
    requires apart { LieApart sizes.now data_begin runs.old.items }
    requires there { All (Contains (present_of runs.old.items)) extents.now }
    ensures apart { LieApart sizes.now data_begin runs.new.items }
    ensures present { present_of runs.new.items ≡ without_runs extents.now (present_of runs.old.items) }
    ensures held { held_of runs.new.items ≡ held_of runs.old.items }
{
    give_back(sizes, runs, extents);
    keep_used(runs);
}

/// The present state holds some runs no more.
fn give_back(sizes: &Sizes, runs: &mut [Run], extents: &[Element])
    requires apart { LieApart sizes.now data_begin runs.old }
    requires there { All (Contains (present_of runs.old)) extents.now }
    ensures { runs.new ≡ map (given_back extents.now) runs.old }
{
    for extent in extents {
        let place = runs_before(runs, extent.address);
        runs[place].set_present(false);
    }
}

/// Drops the runs that neither the present state nor the last commit holds.
fn keep_used(runs: &mut Vec<Run>)
    ensures { runs.new.items ≡ filter is_used runs.old.items }
{
    runs.retain(|run| run.is_present() || run.is_held());
}

/// Whether the present state holds a run of so many bytes, whole.
pub(crate) fn has_run(sizes: &Sizes, runs: &[Run], at: Address, bytes: u64) -> bool
    requires { LieApart sizes.now data_begin runs.now }
    ensures { result ≡ list_any (is_that_run at bytes) (present_of runs.now) }
{
    let place = runs_before(runs, at);
    match runs.get(place) {
        Some(run) => is_present(run, at, bytes),
        None => false,
    }
}

/// Whether a run is this one, whole, and the present state holds it.
fn is_present(run: &Run, at: Address, bytes: u64) -> bool
    ensures { result ≡ (is_that_run at bytes run.now.extent && run.now.present) }
{
    let extent = run.extent();
    extent.address == at && extent.bytes == bytes && run.is_present()
}

/// How many bytes the runs have that the present state holds.
pub(crate) fn present_bytes(sizes: &Sizes, runs: &[Run]) -> u64
    requires served { IsTrue (is_served sizes.now) }
    requires apart { LieApart sizes.now data_begin runs.now }
    ensures bytes { result ≡ bytes_of (present_of runs.now) }
    ensures most { result ≤ sizes.now.sectors * sector }
{
    let mut bytes = 0;
    for run in runs {
        if run.is_present() {
            bytes += run.extent().bytes;
        }
    }
    bytes
}

/// The runs that the present state holds.
pub(crate) fn present_runs(alloc: Global, runs: &[Run]) -> Result<Sequence<Element>, AllocError>
    ensures { IfOk result (λ list. list ≡ present_of runs.now) }
{
    let mut list = Sequence::new(alloc);
    for run in runs {
        if run.is_present() {
            list.push(run.extent())?;
        }
    }
    Ok(list)
}

/// Drops the runs that the present state doesn't hold, and has the last commit hold the others.
pub(crate) fn commit_runs(runs: &mut Vec<Run>)
    ensures apart { (sizes : Sizes) (from : ℕ) → LieApart sizes from runs.old.items
        → LieApart sizes from runs.new.items }
    ensures present { present_of runs.new.items ≡ present_of runs.old.items }
    ensures held { held_of runs.new.items ≡ present_of runs.old.items }
{
    keep_present(runs);
    hold_all(runs);
}

/// Drops the runs that the present state doesn't hold.
fn keep_present(runs: &mut Vec<Run>)
    ensures { runs.new.items ≡ filter (λ run. run.present) runs.old.items }
{
    runs.retain(|run| run.is_present());
}

/// Has the last commit hold each run.
fn hold_all(runs: &mut [Run])
    ensures { runs.new ≡ map with_held runs.old }
{
    for run in runs.iter_mut() {
        run.set_held(true);
    }
}
