// All nodes that subvolumes reach, each once.
ghost use Rattle.std.specs.Prelude.{◌≡◌, ◌∷◌, List, IfOk, IsTrue, false, map};
ghost use Rattle.std.specs.List.Sorted.{IsNonDecreasingBy, IsPermutation, IsStrictlyIncreasing};
ghost use Rattle.qg_device.specs.Cause.{HasCause};
ghost use Rattle.qg_device.specs.History.{Event, Recorded};
ghost use Rattle.qg_num.specs.declared.fault.BlockFault.TheVariants.{Image};
ghost use Rattle.qg_num.specs.declared.rule.Rule.TheVariants.{Refs};
ghost use Rattle.qg_image.specs.Record.{Record};
ghost use Rattle.qg_image.specs.State.{State};
ghost use Rattle.qg_blocks.specs.Stopping.{StopsForCause};
ghost use Rattle.qg_blocks.specs.NodesFound.{BreaksNone};
ghost use Rattle.qg_extents.specs.Table.{IsTable};
ghost use Rattle.qg_qgroup_counts.specs.Surveyed.{surveyed_of};
ghost use Rattle.qg_survey.specs.Surveying.{trees_of as trees_of_state};
ghost use Rattle.qg_open_image.specs.Standing.{trees_of};
ghost use Rattle.qg_open_image.specs.Keeping.{IsKept, IsKeptWith};
ghost use Rattle.qg_image_commits.specs.Planning.{AreInOrder, HasSurveyed};

use qg_disk::Disk;
use qg_num::{BlockFault, NoMemory, Rule, Steps};
use qg_open_image::OpenImage;
use qg_open_image::fs_tree::FsTree;
use qg_qgroup_counts::Surveyed;
use qg_survey::survey;
use qg_tree_read::Tree;
use std::alloc::{AllocError, Global};
use std::sync::ledger::Ledger;

/// The trees of all subvolumes, ascending by number.
pub(crate) fn trees_by_number(alloc: Global, fs: &FsTree) -> Result<Vec<Tree>, NoMemory>
    ensures moved { IfOk result (λ trees. IsPermutation (trees_of fs.now) trees.items) }
    ensures ascending { IfOk result (λ trees. IsNonDecreasingBy (λ tree. tree.owner) trees.items) }
{
    let mut trees = copies_of(alloc, &fs.tree, fs.others.as_slice())?;
    sort(&mut trees);
    Ok(trees)
}

// A tree and others.
fn copies_of(alloc: Global, first: &Tree, others: &[Tree]) -> Result<Vec<Tree>, AllocError>
    ensures { IfOk result (λ trees. trees.items ≡ first.now ∷ others.now) }
{
    let mut trees = Vec::new(alloc);
    trees.push(copy_of(first))?;
    for tree in others {
        trees.push(copy_of(tree))?;
    }
    Ok(trees)
}

// The same tree.
fn copy_of(tree: &Tree) -> Tree
    ensures { result ≡ tree.now }
{
    Tree::at(tree.root(), tree.height(), tree.owner(), tree.next())
}

// Puts trees in the order of their numbers.
fn sort(trees: &mut Vec<Tree>)
    ensures ascending { IsNonDecreasingBy (λ tree. tree.owner) trees.new.items }
    ensures moved { IsPermutation trees.old.items trees.new.items }
{
    trees.sort_unstable_by_key(|tree| tree.owner());
}

/// What is surveyed of all nodes that subvolumes reach, ascending by address. The trees are those of all subvolumes.
///
/// `Image` comes only where the trees have the items of no files: with the rule `Refs` and the address of the root at
/// hand where the references are of another generation to come, or what was surveyed doesn't ascend, or is more than
/// the image has slots.
pub(crate) fn survey_all<D: Disk, L: Ledger>(
    kept: &mut OpenImage,
    disk: &mut D,
    trees: &[Tree],
    reads: &mut Steps<L>,
) -> Result<Vec<Surveyed>, BlockFault>
    requires kept { IsKept kept.old (D.history disk.old) (D.size disk.old) }
    ensures surveyed { (state : State) (names : List Record)
        → IsKeptWith kept.old state (D.history disk.old) names → trees.now ≡ trees_of_state state
        → IfOk result (λ nodes. nodes.items ≡ map (λ entry. surveyed_of entry.0 entry.1) state.layout) }
    ensures sound { (state : State) (events : List Event) (names : List Record) → D.history disk.old ≡ Recorded events
        → IsKeptWith kept.old state (D.history disk.old) names → trees.now ≡ trees_of_state state
        → BreaksNone result }
    ensures order { IfOk result (λ nodes. AreInOrder kept.old nodes.items) }
    ensures table { IsTable kept.old.fs.refs.refs }
    ensures kept { IsKept kept.new (D.history disk.new) (D.size disk.new) }
    ensures looked { HasSurveyed kept.old kept.new (D.history disk.old) (D.history disk.new) (D.size disk.old)
        (D.size disk.new) }
    ensures stops { StopsForCause result kept.old.fs.land.blocks.draft.sizes (D.size disk.old) }
    ensures cause { HasCause BlockFault.Disk (D.faults disk.old) (D.faults disk.new) result }
{
    let _ascending = kept.fs.refs.refs().len();
    let told = kept.fs.refs.next().value();
    let next = kept.fs.tree.next().value();
    if told != next {
        return Err(unfit(kept));
    }
    let nodes = survey(
        kept.alloc,
        &mut kept.fs.land,
        disk,
        trees,
        &kept.fs.refs,
        reads,
    )?;
    if !do_ascend(nodes.as_slice()) {
        return Err(unfit(kept));
    }
    let slots = kept.superblock.slots;
    if nodes.len() as u64 > slots {
        return Err(unfit(kept));
    }
    Ok(nodes)
}

// References or nodes aren't what they should be.
fn unfit(kept: &OpenImage) -> BlockFault
    ensures { result ≡ Image Refs kept.now.fs.tree.address }
{
    BlockFault::Image {
        rule: Rule::Refs,
        address: kept.fs.tree.root(),
    }
}

// Whether each node lies behind the one before.
fn do_ascend(nodes: &[Surveyed]) -> bool
    ensures yes { IsTrue result → IsStrictlyIncreasing (map (λ node. node.linked.address) nodes.now) }
    ensures no { result ≡ false → IsStrictlyIncreasing (map (λ node. node.linked.address) nodes.now) → ⊥ }
{
    for i in 1..nodes.len() {
        if nodes[i].linked.address <= nodes[i - 1].linked.address {
            return false;
        }
    }
    true
}
