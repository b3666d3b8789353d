// What the trees of an image say together.
ghost use Rattle.std.specs.Prelude.{◌≡◌, ◌++◌, List, ℕ, map, None, IfOk, IfErr, IfSome, IsErrOf, IsTrue};
ghost use Rattle.std.specs.Option.{option_map};
ghost use Rattle.qg_super.specs.Places.{is_served};
ghost use Rattle.qg_super.specs.SuperText.{sizes_of};
ghost use Rattle.qg_walk.specs.Fault.{failure_of, FailsAs};
ghost use Rattle.qg_walk.specs.WalkKeeps.{AreInSlots};
ghost use Rattle.qg_image.specs.Verdict.{together_failure};
ghost use Rattle.qg_shared_walk.specs.Gathered.{root_at};
ghost use Rattle.qg_shared_walk.specs.NodeFacts.{AreOfNodes};
ghost use Rattle.qg_qgroups.specs.Tracked.{IsTracked};
ghost use Rattle.qg_check.specs.Editable.{AreSubvolumes};
ghost use Rattle.qg_check.specs.Trees.{quota_nodes_read, AreFitParts, AreRead};
ghost use Rattle.qg_check.specs.IsImage.{StandsFor, Keeps};
ghost use Rattle.qg_check.specs.Judged.{IsJudgedOf};

use crate::Image;
use crate::counts::{judge_counts, judge_extents};
use crate::references::{judge_recorded, read_book};
use crate::trees::{ExtentTree, QuotaTree, Trees};
use qg_image::{Element, RootPart};
use qg_num::{Address, NoMemory, RootId, Sequence};
use qg_qgroup_counts::Surveyed;
use qg_qgroups::QuotaState;
use qg_shared_walk::NodesRead;
use qg_super::Super;
use qg_walk::OpenFault;
use std::alloc::{AllocError, Global};

/// What was read of the trees of an image.
#[derive(Drop)]
pub struct Read {
    /// What the root tree names.
    pub trees: Trees,
    /// What the extent tree says.
    pub extents: ExtentTree,
    /// None while quota is off.
    pub quotas: Option<QuotaTree>,
    /// What was gathered of the nodes of all subvolumes.
    pub nodes: NodesRead,
}

/// What was judged of the trees of an image, and keeps all rules.
#[derive(Drop)]
pub struct JudgedTrees {
    /// What the root tree names.
    pub trees: Trees,
    /// What the extent tree says.
    pub extents: ExtentTree,
    /// Quota, and where the nodes of its tree lie.
    pub quotas: QuotaRead,
    /// The data extents that files name, ascending.
    pub runs: Sequence<Element>,
    /// What was surveyed of the nodes of all subvolumes, ascending by address.
    pub nodes: Vec<Surveyed>,
}

/// Judges where extents lie, what is recorded and what groups count, and keeps what the image stands for.
pub(crate) fn judge_trees(alloc: Global, superblock: Super, read: Read) -> Result<Image, OpenFault>
    requires served { IsTrue (is_served (sizes_of superblock)) }
    requires slots { AreInSlots (sizes_of superblock) AreOfNodes read.nodes }
    requires parts { AreFitParts superblock.generation read.extents.parts }
    requires subvolumes { AreSubvolumes superblock.generation read.trees.subvolumes }
    requires tracked { IfSome (option_map (λ tree. tree.quota) read.quotas) IsTracked }
    ensures failure { (bytes : List ℕ) → AreRead superblock bytes read
        → FailsAs result (together_failure superblock bytes) }
    ensures image { (bytes : List ℕ) → AreRead superblock bytes read
        → IfOk result (λ image. StandsFor superblock bytes image) }
    ensures superblock { IfOk result (λ image. image.superblock ≡ superblock) }
    ensures keeps { IfOk result (λ image. Keeps superblock read image) }
    ensures no_disk { IsErrOf result OpenFault.Disk → ⊥ }
{
    let judged = judge(alloc, &superblock, read)?;
    keep(alloc, superblock, judged)
}

/// Judges where extents lie, what is recorded and what groups count.
pub(crate) fn judge(alloc: Global, superblock: &Super, read: Read) -> Result<JudgedTrees, OpenFault>
    requires served { IsTrue (is_served (sizes_of superblock.now)) }
    requires slots { AreInSlots (sizes_of superblock.now) AreOfNodes read.nodes }
    requires parts { AreFitParts superblock.now.generation read.extents.parts }
    requires subvolumes { AreSubvolumes superblock.now.generation read.trees.subvolumes }
    requires tracked { IfSome (option_map (λ tree. tree.quota) read.quotas) IsTracked }
    ensures failure { (bytes : List ℕ) → AreRead superblock.now bytes read
        → FailsAs result (together_failure superblock.now bytes) }
    ensures judged { IfOk result (λ judged. IsJudgedOf superblock.now read judged) }
    ensures no_disk { IsErrOf result OpenFault.Disk → ⊥ }
{
    let Read {
        trees,
        extents: recorded,
        quotas,
        nodes: reached,
    } = read;
    let apart = parted(alloc, quotas);
    let sizes = superblock.sizes();
    let extents = reached.extents(alloc)?;
    judge_extents(&sizes, extents.as_slice())?;
    let roots = roots_of(alloc, trees.subvolumes.as_slice())?;
    let surveyed = judge_recorded(
        alloc,
        reached,
        roots.as_slice(),
        extents.as_slice(),
        recorded.parts.as_slice(),
    )?;
    judge_counts(
        alloc,
        roots.as_slice(),
        surveyed.as_slice(),
        superblock.nodesize,
        extents.as_slice(),
        &apart.quota,
    )?;
    Ok(JudgedTrees {
        trees,
        extents: recorded,
        quotas: apart,
        runs: extents,
        nodes: surveyed,
    })
}

// Keeps what an image stands for whose trees were judged.
fn keep(alloc: Global, superblock: Super, judged: JudgedTrees) -> Result<Image, OpenFault>
    requires served { IsTrue (is_served (sizes_of superblock)) }
    requires parts { AreFitParts superblock.generation judged.extents.parts }
    ensures sound { (bytes : List ℕ) (read : Read) → AreRead superblock bytes read → IsJudgedOf superblock read judged
        → together_failure superblock bytes ≡ None → IfErr result (λ fault. failure_of fault ≡ None) }
    ensures image { (bytes : List ℕ) (read : Read) → AreRead superblock bytes read → IsJudgedOf superblock read judged
        → together_failure superblock bytes ≡ None → IfOk result (λ image. StandsFor superblock bytes image) }
    ensures superblock { IfOk result (λ image. image.superblock ≡ superblock) }
    ensures keeps { (read : Read) → IsJudgedOf superblock read judged
        → AreInSlots (sizes_of superblock) AreOfNodes read.nodes → IfOk result (λ image. Keeps superblock read image) }
    ensures no_disk { IsErrOf result OpenFault.Disk → ⊥ }
{
    let JudgedTrees {
        trees,
        extents: recorded,
        quotas,
        runs,
        nodes: surveyed,
    } = judged;
    let Trees {
        subvolumes,
        nodes: root_nodes,
        ..
    } = trees;
    let ExtentTree {
        parts,
        nodes: extent_nodes,
    } = recorded;
    let QuotaRead {
        quota,
        nodes: quota_nodes,
    } = quotas;
    let others = joined(root_nodes, extent_nodes, quota_nodes)?;
    let book = read_book(alloc, superblock.nodesize, parts.as_slice())?;
    let nodes = addresses_of(alloc, surveyed.as_slice())?;
    Ok(Image {
        superblock,
        stale: None,
        roots: subvolumes,
        quota,
        others,
        nodes,
        extents: runs,
        book,
    })
}

// Where the roots of subvolumes lie, by their numbers.
fn roots_of(alloc: Global, subvolumes: &[RootPart]) -> Result<Vec<(RootId, Address)>, AllocError>
    ensures { IfOk result (λ roots. roots.items ≡ map root_at subvolumes.now) }
{
    let mut roots = Vec::with_capacity(alloc, subvolumes.len())?;
    for entry in subvolumes {
        roots.push((entry.0, entry.1.bytenr))?;
    }
    Ok(roots)
}

// Where nodes lie.
fn addresses_of(alloc: Global, nodes: &[Surveyed]) -> Result<Sequence<Address>, AllocError>
    ensures { IfOk result (λ addresses. addresses ≡ map (λ node. node.linked.address) nodes.now) }
{
    let mut addresses = Sequence::with_capacity(alloc, nodes.len())?;
    for node in nodes {
        addresses.push(node.linked.address)?;
    }
    Ok(addresses)
}

/// Quota, and where the nodes of its tree lie.
#[derive(Drop)]
pub struct QuotaRead {
    /// Quota; none while it is off.
    pub quota: Option<QuotaState>,
    /// Where the nodes of its tree lie, in bytes.
    pub nodes: Sequence<Address>,
}

// What a quota tree says, and where its nodes lie. While quota is off there are none.
fn parted(alloc: Global, quotas: Option<QuotaTree>) -> QuotaRead
    ensures quota { result.quota ≡ option_map (λ tree. tree.quota) quotas }
    ensures nodes { result.nodes ≡ quota_nodes_read quotas }
{
    match quotas {
        Some(tree) => {
            let QuotaTree { quota, nodes } = tree;
            QuotaRead {
                quota: Some(quota),
                nodes,
            }
        }
        None => QuotaRead {
            quota: None,
            nodes: Sequence::new(alloc),
        },
    }
}

// Three lists, one after the other.
fn joined(
    mut first: Sequence<Address>,
    mut second: Sequence<Address>,
    mut third: Sequence<Address>,
) -> Result<Sequence<Address>, NoMemory>
    ensures { IfOk result (λ all. all ≡ first ++ second ++ third) }
{
    first.append(&mut second)?;
    first.append(&mut third)?;
    Ok(first)
}
