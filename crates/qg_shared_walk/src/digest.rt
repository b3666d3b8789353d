// What is kept of a node below which all is well.
ghost use Rattle.std.specs.Prelude.{◌≡◌, ◌-◌, length, map, slice_get};
ghost use Rattle.qg_image.specs.Walk.{is_told};
ghost use Rattle.qg_shared_walk.specs.Digests.{HasBehind, IsDigestOf, begins_by, ends_by, fits, has_shape};

use qg_image::Expected;
use qg_node::{Keyed, Node};
use qg_num::{Generation, Key};
use qg_tree_items::FileRow;
use qg_walk::{is_root_shaped, takes_a_quarter};

/// What is kept of the items below a node (this project's own).
#[derive(Clone, Copy)]
pub(crate) struct Below {
    /// The greatest of their keys; none where there are no items.
    pub(crate) last: Option<Key>,
    /// What the rule `file` needs of them.
    pub(crate) row: FileRow,
}

/// What is kept of a node below which all is well, in place of reading it once more (this project's own).
#[derive(Clone, Copy)]
pub(crate) struct Digest {
    pub(crate) level: u8,
    pub(crate) generation: Generation,
    /// The first key of its items or pointers; none of an empty leaf.
    pub(crate) first: Option<Key>,
    /// Whether it is a leaf or has two pointers at least.
    pub(crate) is_root_shaped: bool,
    /// Whether it takes a quarter of what the header leaves of a node's bytes.
    pub(crate) is_quarter_full: bool,
    pub(crate) below: Below,
}

impl Below {
    /// What is kept of these items, and behind them of those below a node.
    pub(crate) fn with(&self, digest: &Digest) -> Below
        ensures { HasBehind self.now digest.now.below result }
    {
        Below {
            last: digest.below.last,
            row: self.row.join(&digest.below.row),
        }
    }
}

impl Digest {
    /// That of a node, from what is kept of the items below it.
    pub(crate) fn of(nodesize: u32, node: &Node, below: Below) -> Digest
        ensures digest { IsDigestOf nodesize node.now result }
        ensures below { result.below ≡ below }
    {
        let header = node.header();
        Digest {
            level: header.level,
            generation: header.generation,
            first: node.first_key(),
            is_root_shaped: is_root_shaped(node),
            is_quarter_full: takes_a_quarter(nodesize as usize, node),
            below,
        }
    }

    /// Whether the way to the node leads to expect such a one. Then nothing is wrong there and below.
    pub(crate) fn fits(&self, expected: &Expected) -> bool
        ensures { result ≡ fits expected.now self.now }
    {
        is_told_level(expected.level, self.level)
            && is_told_generation(expected.generation, self.generation)
            && begins_by(expected.from, self.first)
            && self.has_shape(expected.from)
            && ends_by(expected.to, self.below.last)
    }

    // Whether it has the shape of a root, or of a node that a pointer leads to.
    fn has_shape(&self, from: Option<Key>) -> bool
        ensures { result ≡ has_shape from self.now }
    {
        match from {
            None => self.is_root_shaped,
            Some(_) => self.is_quarter_full,
        }
    }
}

fn is_told_level(told: Option<u8>, level: u8) -> bool
    ensures { result ≡ is_told told level }
{
    match told {
        None => true,
        Some(told) => told == level,
    }
}

fn is_told_generation(told: Option<Generation>, generation: Generation) -> bool
    ensures { result ≡ is_told told generation }
{
    match told {
        None => true,
        Some(told) => told == generation,
    }
}

// Whether the first key is the one that is told, if one is.
fn begins_by(from: Option<Key>, first: Option<Key>) -> bool
    ensures { result ≡ begins_by from first }
{
    match (from, first) {
        (None, _) => true,
        (Some(_), None) => false,
        (Some(from), Some(first)) => first == from,
    }
}

// Whether the greatest key comes before the one that is told, if one is.
fn ends_by(to: Option<Key>, last: Option<Key>) -> bool
    ensures { result ≡ ends_by to last }
{
    match (to, last) {
        (Some(to), Some(last)) => last.is_before(to),
        _ => true,
    }
}

/// The key of the last of some items or pointers.
pub(crate) fn last_of<T: Keyed>(list: &[T]) -> Option<Key>
    ensures { result ≡ slice_get (map T.key_of list.now) (length list.now - 1) }
{
    match list.last() {
        None => None,
        Some(last) => Some(last.key()),
    }
}
