// What a commit tells besides the references, and where it may lie.
ghost use Rattle.std.specs.Prelude.{◌≡◌, ◌≤◌, All, List, IfErr, IfNone, IfOk, IfSome, length};
ghost use Rattle.std.specs.List.{Contains};
ghost use Rattle.qg_device.specs.Cause.{HasCause};
ghost use Rattle.qg_device.specs.History.{Event, Recorded};
ghost use Rattle.qg_num.specs.declared.rule.Rule.TheVariants.{Refs};
ghost use Rattle.qg_image.specs.Table.{keys_of};
ghost use Rattle.qg_image.specs.Record.{Record};
ghost use Rattle.qg_image.specs.State.{State};
ghost use Rattle.qg_blocks.specs.Stopping.{NamesRule, StopsForCause};
ghost use Rattle.qg_blocks.specs.NodesFound.{BreaksAt, BreaksNone};
ghost use Rattle.qg_extents.specs.Table.{IsTable};
ghost use Rattle.qg_space.specs.Holding.{free_slots};
ghost use Rattle.qg_tree_read.specs.Tree.{Root};
ghost use Rattle.qg_open_image.specs.HoldsAfter.{AreFree};
ghost use Rattle.qg_open_image.specs.Keeping.{IsFitted, IsKept, IsKeptWith, commit_need};
ghost use Rattle.qg_image_commits.specs.Planning.{
  AreRootsBy,
  HasSurveyed,
  IsLaterAt,
  IsPlanSo,
  IsPlanTold,
  IsRootIn,
  KnowsRoot,
  numbers_of,
};

use crate::counting::{counts_now, quota_now};
use crate::surveying::trees_by_number;
use qg_disk::Disk;
use qg_extents::Extents;
use qg_image::Quota;
use qg_items::RootItem;
use qg_num::{Address, BlockFault, Generation, RootId, Rule, Sequence, Steps};
use qg_open_image::{KeptSubvolume, OpenImage, commit_need};
use qg_tree_read::Tree;
use std::sync::ledger::Ledger;

/// The subvolumes' ROOT_ITEMs by number, and quota, none while it is off, as a commit is to store them; and free slots
/// in which the root, extent and quota trees may lie: their addresses in bytes.
#[derive(Drop)]
pub(crate) struct Plan {
    pub(crate) roots: Sequence<(RootId, RootItem)>,
    pub(crate) quota: Option<Quota>,
    pub(crate) slots: Sequence<Address>,
}

/// What a commit tells of what is kept, and where it may lie. While quota is on all nodes that subvolumes reach are
/// read once each, and nothing else is done.
///
/// `Image` comes only where the trees have the items of no files: as the survey says it; or with the rule `Refs`, and
/// the address of a root that is not known, of a thing that is of a generation past the one to come, or of the root at
/// hand where too few slots are free.
pub(crate) fn plan_of<D: Disk, L: Ledger>(
    kept: &mut OpenImage,
    disk: &mut D,
    reads: &mut Steps<L>,
) -> Result<Plan, BlockFault>
    requires kept { IsKept kept.old (D.history disk.old) (D.size disk.old) }
    ensures plan { IfOk result (λ plan. IsPlanSo kept.new plan) }
    ensures told { (state : State) (names : List Record) → IsKeptWith kept.old state (D.history disk.old) names
        → IfOk result (λ plan. IsPlanTold state kept.new plan) }
    ensures sound { (state : State) (events : List Event) (names : List Record)
        → D.history disk.old ≡ Recorded events → IsKeptWith kept.old state (D.history disk.old) names
        → commit_need kept.old ≤ free_slots kept.old.fs.land.space → BreaksNone result }
    ensures kept { IsKept kept.new (D.history disk.new) (D.size disk.new) }
    ensures looked { HasSurveyed kept.old kept.new (D.history disk.old) (D.history disk.new) (D.size disk.old)
        (D.size disk.new) }
    ensures stops { StopsForCause result kept.old.fs.land.blocks.draft.sizes (D.size disk.old) }
    ensures cause { HasCause BlockFault.Disk (D.faults disk.old) (D.faults disk.new) result }
{
    let _ascending = kept.fs.refs.refs().len();
    let trees = trees_by_number(kept.alloc, &kept.fs)?;
    let counts = counts_now(kept, disk, trees.as_slice(), reads)?;
    let roots = roots_now(kept, trees.as_slice(), kept.snapshots.as_slice())?;
    if let Some(address) = first_later(kept.fs.refs.refs(), kept.fs.tree.next()) {
        return Err(BlockFault::Image {
            rule: Rule::Refs,
            address,
        });
    }
    let slots = slots_for(kept)?;
    let generation = kept.fs.tree.next();
    let quota = quota_now(kept.alloc, &kept.quota, counts.as_slice(), generation)?;
    Ok(Plan {
        roots,
        quota,
        slots,
    })
}

// The ROOT_ITEMs of subvolumes, whose trees stand in the order of these numbers.
fn roots_now(
    kept: &OpenImage,
    trees: &[Tree],
    snapshots: &[(RootId, KeptSubvolume)],
) -> Result<Sequence<(RootId, RootItem)>, BlockFault>
    requires lockstep { numbers_of trees.now ≡ keys_of snapshots.now }
    ensures roots { IfOk result (λ roots. AreRootsBy kept.now trees.now snapshots.now roots) }
    ensures sound { ((tree : Root) → Contains trees.now tree → KnowsRoot kept.now.fs.refs.refs tree)
        → BreaksNone result }
    ensures refs { NamesRule result Refs }
    ensures apart { IfErr result (λ fault. fault ≡ BlockFault.Disk → ⊥) }
{
    let mut roots = Sequence::new(kept.alloc);
    for (i, entry) in snapshots.iter().enumerate() {
        let root = root_now(kept.fs.refs.refs(), &trees[i], entry.1.last_snapshot)?;
        roots.push((entry.0, root))?;
    }
    Ok(roots)
}

// A tree's ROOT_ITEM: what is known of its root says of which generation that is.
fn root_now(book: &Extents, tree: &Tree, last_snapshot: Generation) -> Result<RootItem, BlockFault>
    ensures root { IfOk result (λ root. IsRootIn book.now tree.now last_snapshot root) }
    ensures sound { KnowsRoot book.now tree.now → BreaksNone result }
    ensures unknown { BreaksAt result Refs tree.now.address }
    ensures apart { IfErr result (λ fault. fault ≡ BlockFault.Disk → ⊥) }
{
    let address = tree.root();
    match book.known(address) {
        None => Err(BlockFault::Image {
            rule: Rule::Refs,
            address,
        }),
        Some(what) => Ok(RootItem {
            generation: what.generation,
            bytenr: address,
            last_snapshot,
            refs: 1,
            level: tree.height(),
        }),
    }
}

// Where the first thing begins, by address in bytes, that is of a later generation than this.
fn first_later(book: &Extents, generation: Generation) -> Option<Address>
    ensures none { IfNone result (All (λ entry. entry.1.what.generation ≤ generation) book.now) }
    ensures some { IfSome result (λ at. All (λ entry. entry.1.what.generation ≤ generation) book.now → ⊥) }
    ensures there { IfSome result (λ at. IsLaterAt generation book.now at) }
    ensures table { IsTable book.now }
{
    for (at, kept) in book.table().iter() {
        if kept.what.generation > generation {
            return Some(Address::new(*at));
        }
    }
    None
}

// Free slots, as many as a commit may take.
fn slots_for(kept: &OpenImage) -> Result<Sequence<Address>, BlockFault>
    requires fitted { IsFitted kept.now }
    ensures free { IfOk result (λ slots. AreFree kept.now.fs.land.space slots) }
    ensures few { IfOk result (λ slots. length slots ≤ 16128) }
    ensures enough { IfOk result (λ slots. commit_need kept.now ≤ length slots) }
    ensures most { IfOk result (λ slots. length slots ≤ commit_need kept.now) }
    ensures sound { commit_need kept.now ≤ free_slots kept.now.fs.land.space → BreaksNone result }
    ensures short { BreaksAt result Refs kept.now.fs.tree.address }
    ensures apart { IfErr result (λ fault. fault ≡ BlockFault.Disk → ⊥) }
{
    let need = commit_need(kept)?;
    let slots = kept.fs.land.space.free_list(kept.alloc, need)?;
    if (slots.len() as u64) < need {
        return Err(BlockFault::Image {
            rule: Rule::Refs,
            address: kept.fs.tree.root(),
        });
    }
    Ok(slots)
}
