// The slots that a command needs.
ghost use Rattle.std.specs.Prelude.{◌≡◌, ◌+◌, ◌*◌, ◌^◌, ◌≤◌, IfNone, IfOk, Some};
ghost use Rattle.qg_node.specs.NodeText.{IsNodeSize};
ghost use Rattle.qg_image.specs.Need.{nodes_filled};
ghost use Rattle.qg_extents.specs.Table.{IsTable};
ghost use Rattle.qg_space.specs.Holding.{free_slots};
ghost use Rattle.qg_qgroups.specs.Tracked.{quota_of};
ghost use Rattle.qg_fs_laws.specs.Trees.{quota_tree_bytes, quota_trees};
ghost use Rattle.qg_open_image.specs.Editing.{slots_refusal};
ghost use Rattle.qg_open_image.specs.Keeping.{
  commit_need,
  filled_by,
  need_of,
  quota_weight,
  root_weight,
  structural_need_of,
};

use crate::open_image::OpenImage;
use qg_items::{QGROUP_INFO_BYTES, QGROUP_LIMIT_BYTES, QGROUP_STATUS_BYTES, ROOT_ITEM_BYTES};
use qg_node::{HEADER_BYTES, ITEM_HEADER_BYTES};
use qg_num::{NoMemory, Refusal};
use qg_qgroups::QuotaState;

/// What a ROOT_ITEM takes in bytes, the item of the quota tree's status, and the two of a group and of a relation.
const ROOT_BYTES: u64 = (ITEM_HEADER_BYTES + ROOT_ITEM_BYTES) as u64;

const STATUS_BYTES: u64 = (ITEM_HEADER_BYTES + QGROUP_STATUS_BYTES) as u64;

const GROUP_BYTES: u64 = (2 * ITEM_HEADER_BYTES + QGROUP_INFO_BYTES + QGROUP_LIMIT_BYTES) as u64;

const RELATION_BYTES: u64 = (2 * ITEM_HEADER_BYTES) as u64;

/// The most bytes of items that memory can tell of, the most pieces or copied nodes that a command can tell of, and the
/// most subvolumes, groups, or relations that memory can hold.
const MOST_BYTES: u64 = 1 << 61;

const MOST_PIECES: u64 = 1 << 48;

const MOST_ENTRIES: usize = 1 << 48;

/// Why a command is refused that touches so many pieces, where it doesn't find the slots that it needs.
pub fn no_nodes(kept: &OpenImage, pieces: u64) -> Result<Option<Refusal>, NoMemory>
    requires size { IsNodeSize kept.now.superblock.nodesize }
    ensures value { IfOk result (λ why. why ≡ slots_refusal kept.now pieces) }
    ensures enough { IfOk result (λ why. IfNone why (need_of kept.now pieces ≤ free_slots kept.now.fs.land.space)) }
    ensures table { IsTable kept.now.fs.refs.refs }
{
    let _ascending = kept.fs.refs.refs().len();
    let need = need_of(kept, pieces)?;
    let free = kept.fs.land.space.free_slots();
    if free < need {
        return Ok(Some(Refusal::NoNodes { free, need }));
    }
    Ok(None)
}

// The slots that a command needs which touches so many pieces. More pieces than 2^48 are told in no memory.
fn need_of(kept: &OpenImage, pieces: u64) -> Result<u64, NoMemory>
    requires size { IsNodeSize kept.now.superblock.nodesize }
    ensures { IfOk result (λ need. need ≡ need_of kept.now pieces) }
{
    let filled = filled_by(kept)?;
    if pieces > MOST_PIECES {
        return Err(NoMemory);
    }
    let copies = 3 * (u64::from(kept.fs.tree.height()) + 2) * (pieces + 3);
    Ok(10 * copies + 8 * filled + 40)
}

/// The slots that a structural command needs whose change may copy so many nodes. More nodes than 2^48 are told in no
/// memory.
pub fn structural_need(kept: &OpenImage, copies: u64) -> Result<u64, NoMemory>
    requires size { IsNodeSize kept.now.superblock.nodesize }
    ensures { IfOk result (λ need. need ≡ structural_need_of kept.now copies) }
{
    let filled = filled_by(kept)?;
    if copies > MOST_PIECES {
        return Err(NoMemory);
    }
    Ok(10 * copies + 16 * filled + 80)
}

/// The slots that a commit plans for the root, extent and quota trees. More items than take 2^61 bytes are told in no
/// memory.
pub fn commit_need(kept: &OpenImage) -> Result<u64, NoMemory>
    requires size { IsNodeSize kept.now.superblock.nodesize }
    ensures { IfOk result (λ need. need ≡ commit_need kept.now) }
{
    let nodesize = kept.superblock.nodesize;
    let weight = kept.fs.refs.bytes();
    if weight > MOST_BYTES {
        return Err(NoMemory);
    }
    let book = filled(nodesize, weight);
    let roots = filled(nodesize, root_bytes(kept)?);
    let quota = filled(nodesize, quota_bytes(kept)?);
    Ok(5 * (book + roots + quota) + 3)
}

// The nodes that the items of all three trees fill, that the last commit holds or one now would hold.
fn filled_by(kept: &OpenImage) -> Result<u64, NoMemory>
    requires size { IsNodeSize kept.now.superblock.nodesize }
    ensures value { IfOk result (λ nodes. nodes ≡ filled_by kept.now) }
    ensures few { IfOk result (λ nodes. nodes ≤ 2 ^ 59) }
{
    let weight = kept.fs.refs.bytes();
    if weight > MOST_BYTES {
        return Err(NoMemory);
    }
    let roots = root_bytes(kept)?;
    let quota = quota_bytes(kept)?;
    Ok(filled(kept.superblock.nodesize, weight + roots + quota))
}

// What the items of the root tree take, in bytes.
fn root_bytes(kept: &OpenImage) -> Result<u64, NoMemory>
    ensures value { IfOk result (λ bytes. bytes ≡ root_weight kept.now) }
    ensures few { IfOk result (λ bytes. bytes ≤ 2 ^ 58) }
{
    let count = kept.snapshots.len();
    if count > MOST_ENTRIES {
        return Err(NoMemory);
    }
    Ok(ROOT_BYTES * (count as u64 + 1 + quota_trees_of(kept)))
}

// How many quota trees there are: one, and none while quota is off.
fn quota_trees_of(kept: &OpenImage) -> u64
    ensures value { result ≡ quota_trees (quota_of kept.now.quota) }
    ensures one { result ≤ 1 }
{
    match &kept.quota {
        None => 0,
        Some(_state) => 1,
    }
}

// What the items of the quota tree take, in bytes.
fn quota_bytes(kept: &OpenImage) -> Result<u64, NoMemory>
    ensures value { IfOk result (λ bytes. bytes ≡ quota_weight kept.now) }
    ensures few { IfOk result (λ bytes. bytes ≤ 2 ^ 58) }
{
    match &kept.quota {
        None => Ok(0),
        Some(state) => bytes_of_quota(state),
    }
}

// What they take while quota is on.
fn bytes_of_quota(state: &QuotaState) -> Result<u64, NoMemory>
    ensures value { IfOk result (λ bytes. bytes ≡ quota_tree_bytes (Some state.now.quota)) }
    ensures few { IfOk result (λ bytes. bytes ≤ 2 ^ 58) }
{
    let groups = state.quota.groups.len();
    let pairs = state.quota.pairs.len();
    if groups > MOST_ENTRIES || pairs > MOST_ENTRIES {
        return Err(NoMemory);
    }
    Ok(STATUS_BYTES + GROUP_BYTES * groups as u64 + RELATION_BYTES * pairs as u64)
}

// The nodes that so many bytes fill.
fn filled(nodesize: u32, bytes: u64) -> u64
    requires size { IsNodeSize nodesize }
    requires light { bytes ≤ 2 ^ 63 }
    ensures value { result ≡ nodes_filled nodesize bytes }
    ensures few { 3995 * result ≤ bytes + nodesize }
{
    let capacity = u64::from(nodesize) - HEADER_BYTES as u64;
    (bytes + (capacity - 1)) / capacity
}
