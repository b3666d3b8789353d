// A subvolume's book.
ghost use Rattle.std.specs.Prelude.{◌≡◌, ◌<◌, None, IfOk, IfSome, OnOk, length};
ghost use Rattle.std.specs.Option.{option_or};
ghost use Rattle.qg_node_alloc.specs.Tellings.Telling.{Copied, Made, Left};

use crate::cases::{lists_of_copy, lists_of_leaving, lists_of_parting, parting};
use crate::coming::Coming;
use crate::exchange::exchange;
use crate::lists::Lists;
use qg_cow_refs::Leaving;
use qg_node::Node;
use qg_num::{Address, Generation, NoMemory, RootId};
use qg_refs::What;
use qg_weighed::extents::Extents;
use qg_weighed::{BookCopy, Weighed};
use std::marker::Model;

/// A subvolume's book: what its tree tells becomes references in the book in memory (on-disk format, "backreferences"),
/// and what these take with those that the last commit recorded is known all the while.
#[derive(Drop)]
pub struct TreeRefs {
    pub(crate) refs: Weighed,
    tree: RootId,
    nodesize: u64,
    pub(crate) next: Generation,
    misfit: Option<Address>,
}

impl Model for TreeRefs {
    ghost use Rattle.qg_tree_backrefs.specs.TreeBook.{TreeBook};

    ghost Value = { TreeBook };

    ghost view = { λ book. record {
      refs = book.refs.refs;
      held = book.refs.held;
      tree = book.tree;
      nodesize = book.nodesize;
      next = book.next;
      misfit = book.misfit;
    } };
}

impl TreeRefs {
    ghost use Rattle.qg_weighed.specs.Table.{book_of};
    ghost use Rattle.qg_weighed.specs.Weight.{weight_of};
    ghost use Rattle.qg_refs.specs.Book.{references_at};
    ghost use Rattle.qg_tree_backrefs.specs.Exchange.{CanExchange, Exchanges, exchange_told};
    ghost use Rattle.qg_tree_backrefs.specs.Following.{Step, comes, other_level};
    ghost use Rattle.qg_tree_backrefs.specs.Following.{IsExchanged, exchange_by_parting, parting_in};

    /// The book of the subvolume `tree`, whose nodes have so many bytes. Those that come are of the generation `next`.
    /// No misfit is noted.
    pub fn new(refs: Weighed, tree: RootId, nodesize: u64, next: Generation) -> TreeRefs
        ensures { result ≡ record {
          refs = refs.refs;
          held = refs.held;
          tree = tree;
          nodesize = nodesize;
          next = next;
          misfit = None;
        } }
    {
        TreeRefs {
            refs,
            tree,
            nodesize,
            next,
            misfit: None,
        }
    }

    /// The book is that of the subvolume `tree` from now on: what comes is owned by it.
    pub fn stand_for(&mut self, tree: RootId)
        ensures { self.new ≡ record self.old { tree = tree } }
    {
        self.tree = tree;
    }

    /// Where the first reference lies that was told and could not be given or taken: its address in bytes.
    pub fn misfit(&self) -> Option<Address>
        ensures { result ≡ self.now.misfit }
    {
        self.misfit
    }

    /// Of which generation what comes is.
    pub fn next(&self) -> Generation
        ensures { result ≡ self.now.next }
    {
        self.next
    }

    /// The references.
    pub fn refs(&self) -> &Extents
        ensures { result.now ≡ self.now.refs }
    {
        self.refs.refs()
    }

    /// What the items take that stand for the references or for those that the last commit recorded, each once, in
    /// bytes.
    pub fn bytes(&self) -> u64
        ensures { result ≡ weight_of self.now.held self.now.refs }
    {
        self.refs.bytes()
    }

    /// The references, as they are now, beside those that the last commit recorded.
    pub fn into_refs(self) -> Weighed
        ensures { result ≡ record { refs = self.refs; held = self.held } }
    {
        self.refs
    }

    /// What a commit is to record: the references as they are.
    pub fn to_record(&self) -> Result<BookCopy, NoMemory>
        ensures { IfOk result (λ copy. copy ≡ self.now.refs) }
    {
        self.refs.to_record()
    }

    /// A commit recorded the references, of which this is a copy: they are held from now on, and what comes is of this
    /// generation. It takes no memory.
    pub fn recorded(&mut self, copy: BookCopy, next: Generation)
        requires { copy ≡ self.old.refs }
        ensures { self.new ≡ record self.old { held = self.old.refs; next = next } }
    {
        self.refs.hold(copy);
        self.next = next;
    }

    /// Gives and takes references. The answer is where the first lies that could not be given or taken.
    fn exchange(
        &mut self,
        lists: &Lists,
        coming: Option<Coming>,
    ) -> Result<Option<Address>, NoMemory>
        requires { IfSome lists.now.full (λ at. 0 < length (references_at (book_of self.old.refs) at)) }
        ensures done { IfOk result (λ misfit. misfit ≡ None
            → Exchanges (book_of self.old.refs) (book_of self.new.refs) (exchange_told lists.now) coming) }
        ensures proper { CanExchange (book_of self.old.refs) (exchange_told lists.now) coming
            → IfOk result (λ misfit. misfit ≡ None) }
        ensures others { self.new ≡ record self.old { refs = self.new.refs } }
    {
        exchange(&mut self.refs, lists, coming)
    }

    /// Notes a misfit, if there is one and none is noted yet.
    pub(crate) fn note(&mut self, misfit: Option<Address>)
        ensures { self.new ≡ record self.old { misfit = option_or self.old.misfit misfit } }
    {
        self.misfit = self.misfit.or(misfit);
    }

    /// A node of a level that comes.
    fn comes(&self, address: Address, level: u8) -> Coming
        ensures { result ≡ comes self.now address level }
    {
        Coming {
            address,
            what: What {
                bytes: self.nodesize,
                level: Some(level),
                generation: self.next,
            },
            tree: self.tree,
        }
    }

    /// The node was copied.
    pub(crate) fn copy(&mut self, node: &Node, copy: Address) -> Result<(), NoMemory>
        ensures { OnOk result (Step self.old (Copied node.now copy) self.new) }
    {
        let lists = lists_of_copy(self.refs(), node, self.tree)?;
        let coming = self.comes(copy, node.level());
        let misfit = self.exchange(&lists, Some(coming))?;
        self.note(misfit);
        Ok(())
    }

    /// A node of a level was made.
    pub(crate) fn make(&mut self, at: Address, level: u8) -> Result<(), NoMemory>
        ensures { OnOk result ((step : Step self.old (Made at) self.new) × (step.level ≡ level)) }
    {
        let alloc = self.refs().allocator();
        let lists = Lists {
            full: None,
            gains: Vec::new(alloc),
            losses: Vec::new(alloc),
        };
        let coming = self.comes(at, level);
        let misfit = self.exchange(&lists, Some(coming))?;
        self.note(misfit);
        Ok(())
    }

    /// A node's address, where references besides one lead to it, and its level is not known.
    fn other_level(&self, node: &Node) -> Option<Address>
        ensures { result ≡ other_level (book_of self.now.refs) node.now }
    {
        let at = node.header().address;
        let known = match self.refs.known(at) {
            Some(what) => what.level == Some(node.level()),
            None => false,
        };
        if self.refs.how_many(at) > 1 && !known {
            return Some(at);
        }
        None
    }

    /// The node is reached no more.
    pub(crate) fn leave(&mut self, node: &Node) -> Result<(), NoMemory>
        ensures { OnOk result ((step : Step self.old (Left node.now) self.new)
            × (step.misfit ≡ None → other_level (book_of self.old.refs) node.now ≡ None)) }
    {
        let level = self.other_level(node);
        let lists = lists_of_leaving(self.refs(), node, self.tree)?;
        let misfit = self.exchange(&lists, None)?;
        self.note(level.or(misfit));
        Ok(())
    }

    /// The subvolume reaches the node no more: its own reference to it is gone before, or the reference is that of a
    /// node above which stays. `full` says whether the node was full, which a book forgets with the last reference. The
    /// answer is what became of it.
    pub fn part_with(&mut self, node: &Node, full: bool) -> Result<Leaving, NoMemory>
        ensures case { IfOk result (λ case. case
            ≡ parting_in (book_of self.old.refs) self.old.tree (record { node = node.now; full = full })) }
        ensures done { OnOk result (IsExchanged self.old
            (exchange_by_parting (book_of self.old.refs) self.old.tree (record { node = node.now; full = full }))
            self.new) }
        ensures kept { (self.new.tree ≡ self.old.tree) × (self.new.nodesize ≡ self.old.nodesize)
            × (self.new.next ≡ self.old.next) }
    {
        let case = parting(self.refs(), node, full, self.tree);
        let lists = lists_of_parting(self.refs(), node, full, self.tree)?;
        let misfit = self.exchange(&lists, None)?;
        self.note(misfit);
        Ok(case)
    }
}
