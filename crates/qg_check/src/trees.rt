// The trees of an image, one by one.
ghost use Rattle.std.specs.Prelude.{◌≡◌, ◌≤◌, List, [], Some, false, IfOk, IfSome, IfNone, IsTrue};
ghost use Rattle.std.specs.List.{list_all};
ghost use Rattle.std.specs.Option.{option_map};
ghost use Rattle.qg_device.specs.Cause.{HasCause};
ghost use Rattle.qg_device.specs.History.{Event, Recorded, content};
ghost use Rattle.qg_super.specs.Places.{is_served, is_slot, total_bytes};
ghost use Rattle.qg_super.specs.SuperText.{sizes_of};
ghost use Rattle.qg_image.specs.Table.{keys_of};
ghost use Rattle.qg_image.specs.Walk.{root_told};
ghost use Rattle.qg_image.specs.ImageState.{roots_in, subvolume_roots};
ghost use Rattle.qg_image.specs.Verdict.{are_roots, quota_failure, roots_failure};
ghost use Rattle.qg_walk.specs.Fault.{FailsAs};
ghost use Rattle.qg_qgroups.specs.Tracked.{quota_of, HoldsAll, IsTracked};
ghost use Rattle.qg_check.specs.Editable.{AreGroups, AreGroupsOf, AreSubvolumes};
ghost use Rattle.qg_check.specs.Stages.{extents_failure};
ghost use Rattle.qg_check.specs.Trees.{quota_nodes_read, AreFitParts, AreNamed, AreTrees, HasTrees};
ghost use Rattle.qg_check.specs.Trees.{IsExtentTree, IsQuotaTree, IsQuotaTreeOf};

use crate::references::look_at_counts;
use qg_disk::Disk;
use qg_image::{Expected, ExtentPart, QuotaPart, RootPart};
use qg_items::RootItem;
use qg_items::tree::{EXTENT_TREE, QUOTA_TREE};
use qg_num::{Address, RootId, Rule, Sequence};
use qg_qgroups::QuotaState;
use qg_quota::{QuotaFault, read_quota};
use qg_super::Super;
use qg_tree_items::{are_roots, is_subvolume_number, root_of};
use qg_walk::{OpenFault, root_told, walk_tree};
use std::alloc::{AllocError, Global};

// The most subvolumes that are served.
const MOST_SUBVOLUMES: usize = 4096;

/// The trees that a root tree names.
#[derive(Drop)]
pub struct Trees {
    /// The ROOT_ITEM of the extent tree.
    pub extents: RootItem,
    /// None while quota is off.
    pub quotas: Option<RootItem>,
    /// The subvolumes, ascending by number.
    pub subvolumes: Sequence<RootPart>,
    /// Where the root tree's own nodes lie, in bytes.
    pub nodes: Sequence<Address>,
}

/// What the extent tree says.
#[derive(Drop)]
pub struct ExtentTree {
    /// What its items say, ascending by key.
    pub parts: Sequence<ExtentPart>,
    /// Where its nodes lie, in bytes.
    pub nodes: Sequence<Address>,
}

/// What the quota tree says.
#[derive(Drop)]
pub struct QuotaTree {
    /// Nothing is held for a reservation.
    pub quota: QuotaState,
    /// Where its nodes lie, in bytes.
    pub nodes: Sequence<Address>,
}

/// Reads the root tree and judges what it names.
pub(crate) fn read_roots<D: Disk>(
    alloc: Global,
    disk: &mut D,
    superblock: &Super,
) -> Result<Trees, OpenFault>
    requires served { IsTrue (is_served (sizes_of superblock.now)) }
    requires inside { total_bytes (sizes_of superblock.now) ≤ D.size disk.old }
    ensures failure { (events : List Event) → D.history disk.old ≡ Recorded events
        → FailsAs result (roots_failure superblock.now (content events)) }
    ensures trees { (events : List Event) → D.history disk.old ≡ Recorded events
        → IfOk result (λ trees. AreTrees superblock.now (content events) trees) }
    ensures subvolumes { IfOk result (λ trees. AreSubvolumes superblock.now.generation trees.subvolumes) }
    ensures slots { IfOk result (λ trees. IsTrue (list_all (is_slot (sizes_of superblock.now)) trees.nodes)) }
    ensures history { D.history disk.new ≡ D.history disk.old }
    ensures size { D.size disk.new ≡ D.size disk.old }
    ensures cause { HasCause OpenFault.Disk (D.faults disk.old) (D.faults disk.new) result }
{
    let expected = Expected {
        level: None,
        generation: None,
        from: None,
        to: None,
    };
    let walked = walk_tree::<RootPart, Sequence<RootPart>, Sequence<Address>, D>(
        alloc,
        disk,
        superblock,
        &expected,
        superblock.root,
        Sequence::new(alloc),
    )?;
    let Some(named) = name_trees(walked.parts.as_slice()) else {
        return Err(OpenFault::Broken {
            rule: Rule::Root,
            address: superblock.root,
        });
    };
    let subvolumes = subvolumes_of(alloc, walked.parts.as_slice())?;
    if subvolumes.len() > MOST_SUBVOLUMES {
        return Err(OpenFault::Broken {
            rule: Rule::Limits,
            address: superblock.root,
        });
    }
    Ok(Trees {
        extents: named.extents,
        quotas: named.quotas,
        subvolumes,
        nodes: walked.nodes,
    })
}

// The ROOT_ITEMs of the extent tree and, while there is one, the quota tree.
#[derive(Clone, Copy)]
struct Named {
    extents: RootItem,
    quotas: Option<RootItem>,
}

// The trees besides subvolumes' that a root tree names; `None` exactly where the extent tree or the top-level subvolume
// is missing.
fn name_trees(roots: &[RootPart]) -> Option<Named>
    ensures some { IfSome result (λ named. HasTrees roots.now named.extents named.quotas) }
    ensures none { IfNone result (are_roots roots.now ≡ false) }
{
    if !are_roots(roots) {
        return None;
    }
    let extents = root_of(RootId::new(EXTENT_TREE), roots)?;
    let quotas = root_of(RootId::new(QUOTA_TREE), roots);
    Some(Named { extents, quotas })
}

// The ROOT_ITEMs of subvolumes, in the order in which they stand.
fn subvolumes_of(alloc: Global, roots: &[RootPart]) -> Result<Sequence<RootPart>, AllocError>
    ensures { IfOk result (λ subvolumes. subvolumes ≡ subvolume_roots roots.now) }
{
    let mut subvolumes = Sequence::new(alloc);
    for part in roots {
        if is_subvolume_number(part.0.value()) {
            subvolumes.push(*part)?;
        }
    }
    Ok(subvolumes)
}

/// Reads the extent tree. What it says is judged together with the other trees.
pub(crate) fn read_extents<D: Disk>(
    alloc: Global,
    disk: &mut D,
    superblock: &Super,
    root: &RootItem,
) -> Result<ExtentTree, OpenFault>
    requires served { IsTrue (is_served (sizes_of superblock.now)) }
    requires inside { total_bytes (sizes_of superblock.now) ≤ D.size disk.old }
    ensures failure { (events : List Event) → D.history disk.old ≡ Recorded events
        → FailsAs result (extents_failure superblock.now (content events) root.now) }
    ensures tree { (events : List Event) → D.history disk.old ≡ Recorded events
        → IfOk result (λ tree. IsExtentTree superblock.now (content events) root.now tree) }
    ensures parts { IfOk result (λ tree. AreFitParts superblock.now.generation tree.parts) }
    ensures slots { IfOk result (λ tree. IsTrue (list_all (is_slot (sizes_of superblock.now)) tree.nodes)) }
    ensures history { D.history disk.new ≡ D.history disk.old }
    ensures size { D.size disk.new ≡ D.size disk.old }
    ensures cause { HasCause OpenFault.Disk (D.faults disk.old) (D.faults disk.new) result }
{
    let walked = walk_tree::<ExtentPart, Sequence<ExtentPart>, Sequence<Address>, D>(
        alloc,
        disk,
        superblock,
        &root_told(root),
        root.bytenr,
        Sequence::new(alloc),
    )?;
    look_at_counts(walked.parts.as_slice());
    Ok(ExtentTree {
        parts: walked.parts,
        nodes: walked.nodes,
    })
}

/// Reads the quota tree, where there is one, and judges what it says beside these subvolumes.
pub(crate) fn read_quotas<D: Disk>(
    alloc: Global,
    disk: &mut D,
    superblock: &Super,
    root: &Option<RootItem>,
    subvolumes: &[RootPart],
) -> Result<Option<QuotaTree>, OpenFault>
    requires served { IsTrue (is_served (sizes_of superblock.now)) }
    requires inside { total_bytes (sizes_of superblock.now) ≤ D.size disk.old }
    ensures failure { (events : List Event) (extents : RootItem) → D.history disk.old ≡ Recorded events
        → AreNamed (roots_in superblock.now (content events)) extents root.now subvolumes.now
        → FailsAs result (quota_failure superblock.now (content events) (roots_in superblock.now (content events))
        root.now) }
    ensures tree { (events : List Event) → D.history disk.old ≡ Recorded events
        → IfOk result (λ found. IsQuotaTreeOf superblock.now (content events) root.now found) }
    ensures groups { IfOk result (λ found. AreGroupsOf superblock.now.generation (keys_of subvolumes.now)
        (quota_of (option_map (λ tree. tree.quota) found))) }
    ensures tracked { IfOk result (λ found. IfSome (option_map (λ tree. tree.quota) found) IsTracked) }
    ensures none { IfOk result (λ found. IfSome (option_map (λ tree. tree.quota) found) (λ state. HoldsAll state [])) }
    ensures slots { IfOk result
        (λ found. IsTrue (list_all (is_slot (sizes_of superblock.now)) (quota_nodes_read found))) }
    ensures history { D.history disk.new ≡ D.history disk.old }
    ensures size { D.size disk.new ≡ D.size disk.old }
    ensures cause { HasCause OpenFault.Disk (D.faults disk.old) (D.faults disk.new) result }
{
    match root {
        Some(root) => {
            let tree = read_quota_tree(alloc, disk, superblock, root, subvolumes)?;
            Ok(Some(tree))
        }
        None => Ok(None),
    }
}

// Reads a quota tree by its ROOT_ITEM, and judges what it says beside these subvolumes.
fn read_quota_tree<D: Disk>(
    alloc: Global,
    disk: &mut D,
    superblock: &Super,
    root: &RootItem,
    subvolumes: &[RootPart],
) -> Result<QuotaTree, OpenFault>
    requires served { IsTrue (is_served (sizes_of superblock.now)) }
    requires inside { total_bytes (sizes_of superblock.now) ≤ D.size disk.old }
    ensures failure { (events : List Event) (extents : RootItem) → D.history disk.old ≡ Recorded events
        → AreNamed (roots_in superblock.now (content events)) extents (Some root.now) subvolumes.now
        → FailsAs result (quota_failure superblock.now (content events) (roots_in superblock.now (content events))
        (Some root.now)) }
    ensures tree { (events : List Event) → D.history disk.old ≡ Recorded events
        → IfOk result (λ tree. IsQuotaTree superblock.now (content events) root.now tree) }
    ensures groups { IfOk result (λ tree.
        AreGroups superblock.now.generation (keys_of subvolumes.now) tree.quota.quota) }
    ensures tracked { IfOk result (λ tree. IsTracked tree.quota) }
    ensures none { IfOk result (λ tree. HoldsAll tree.quota []) }
    ensures slots { IfOk result (λ tree. IsTrue (list_all (is_slot (sizes_of superblock.now)) tree.nodes)) }
    ensures history { D.history disk.new ≡ D.history disk.old }
    ensures size { D.size disk.new ≡ D.size disk.old }
    ensures cause { HasCause OpenFault.Disk (D.faults disk.old) (D.faults disk.new) result }
{
    let walked = walk_tree::<QuotaPart, Sequence<QuotaPart>, Sequence<Address>, D>(
        alloc,
        disk,
        superblock,
        &root_told(root),
        root.bytenr,
        Sequence::new(alloc),
    )?;
    match read_quota(alloc, subvolumes, walked.parts.as_slice()) {
        Ok(quota) => {
            let state = QuotaState::new(alloc, quota)?;
            Ok(QuotaTree {
                quota: state,
                nodes: walked.nodes,
            })
        }
        Err(QuotaFault::Rule(rule)) => Err(OpenFault::Broken {
            rule,
            address: root.bytenr,
        }),
        Err(QuotaFault::NoMemory) => Err(OpenFault::NoMemory),
    }
}
