// A tree.
ghost use Rattle.std.specs.Prelude.{◌≡◌, ◌+◌, ◌-◌, ◌<◌, ◌^◌, None, Some};
ghost use Rattle.qg_blocks.specs.Walk.{root_expected};
ghost use Rattle.qg_tree_read.specs.Tree.{super_of};

use crate::way::Way;
use qg_blocks::Blocks;
use qg_blocks::image::Expected;
use qg_num::{Address, Generation, RootId};
use qg_super::Super;
use std::marker::Model;

/// A tree over nodes by address (on-disk format, "B-tree"): where its root lies, and its height, which is the root's
/// level.
#[derive(Drop)]
pub struct Tree {
    root: Address,
    height: u8,
    owner: RootId,
    next: Generation,
}

impl Model for Tree {
    ghost use Rattle.qg_tree_read.specs.Tree.{Root};

    ghost Value = { Root };

    ghost view = { λ t. record { address = t.root; height = t.height; owner = t.owner; next = t.next } };
}

impl Tree {
    /// The tree whose root lies at an address in bytes and has this level. Nodes that are made for it have this owner,
    /// and the generation `next`, which is the one to come. No node of it has a later one.
    pub fn at(root: Address, height: u8, owner: RootId, next: Generation) -> Tree
        ensures { result ≡ record { address = root; height = height; owner = owner; next = next } }
    {
        Tree {
            root,
            height,
            owner,
            next,
        }
    }

    /// Where its root lies, in bytes.
    pub fn root(&self) -> Address
        ensures { result ≡ self.now.address }
    {
        self.root
    }

    /// The level of its root: 0 where that is its only node.
    pub fn height(&self) -> u8
        ensures { result ≡ self.now.height }
    {
        self.height
    }

    /// The number of the tree that makes its nodes.
    pub fn owner(&self) -> RootId
        ensures { result ≡ self.now.owner }
    {
        self.owner
    }

    /// The generation to come.
    pub fn next(&self) -> Generation
        ensures { result ≡ self.now.next }
    {
        self.next
    }

    /// The root lies at another address from now on.
    pub fn stand_at(&mut self, root: Address)
        ensures { self.new ≡ record self.old { address = root } }
    {
        self.root = root;
    }

    /// The root lies at another address from now on, a level higher.
    pub fn rise_to(&mut self, root: Address)
        requires { self.old.height < 255 }
        ensures { self.new ≡ record self.old { address = root; height = self.old.height + 1 } }
    {
        self.root = root;
        self.height += 1;
    }

    /// The root lies at another address from now on, a level lower.
    pub fn sink_to(&mut self, root: Address)
        requires { 0 < self.old.height }
        ensures { self.new ≡ record self.old { address = root; height = self.old.height - 1 } }
    {
        self.root = root;
        self.height -= 1;
    }

    /// The way to the root: where it lies, and what is expected of it.
    pub fn way(&self) -> Way
        ensures address { result.address ≡ self.now.address }
        ensures expected { result.expected ≡ root_expected (Some self.now.height) None }
    {
        Way {
            address: self.root,
            expected: Expected {
                level: Some(self.height),
                generation: None,
                from: None,
                to: None,
            },
        }
    }

    // The superblock that the rules of a node ask.
    pub(crate) fn superblock(&self, blocks: &Blocks) -> Super
        ensures asked { result ≡ super_of self.now blocks.now.draft }
        ensures fits { result.nodesize < 2 ^ 32 }
    {
        Super {
            generation: self.next,
            root: Address::new(0),
            nodesize: blocks.nodesize(),
            slots: 0,
            sectors: 0,
            format: 1,
        }
    }
}
