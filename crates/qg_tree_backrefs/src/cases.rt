// What a copy, and leaving a node, does to references.
ghost use Rattle.std.specs.Prelude.{◌≡◌, ◌<◌, ◌∷◌, ◌++◌, [], IfOk, IfSome, None, OnOk, length};
ghost use Rattle.qg_cow_refs.specs.Children.{keyed_children, way_to};
ghost use Rattle.qg_refs.specs.Book.{references_at};
ghost use Rattle.qg_weighed.specs.Table.{book_of};
ghost use Rattle.qg_backref_rule.specs.OwedLists.{owings_told};
ghost use Rattle.qg_tree_backrefs.specs.Exchange.{exchange_told};
ghost use Rattle.qg_tree_backrefs.specs.Following.{exchange_by_copy, exchange_by_leaving, exchange_by_parting};
ghost use Rattle.qg_tree_backrefs.specs.Following.{parting_in};

use crate::lists::Lists;
use qg_backref_rule::{Owing, owings_of_node, owings_under};
use qg_cow_refs::{Edits, Leaving, edits, leaving};
use qg_node::{Header, Node};
use qg_num::{Address, NoMemory, RootId};
use qg_refs::Reference;
use qg_weighed::extents::Extents;
use std::alloc::Global;

/// The lists of a tree that no more has its reference to an address; nothing else changes.
fn way_lost(alloc: Global, at: Address, tree: RootId) -> Result<Lists, NoMemory>
    ensures { IfOk result (λ lists. exchange_told lists
        ≡ record { full = None; gains = []; losses = way_to at tree ∷ [] }) }
{
    let mut losses = Vec::new(alloc);
    losses.push(Owing {
        address: at,
        reference: Reference::KeyedBlock { root: tree },
    })?;
    Ok(Lists {
        full: None,
        gains: Vec::new(alloc),
        losses,
    })
}

/// Puts a keyed reference of a tree to each child of a node at the end (on-disk format, "backreferences").
fn put_keyed(node: &Node, tree: RootId, owings: &mut Vec<Owing>) -> Result<(), NoMemory>
    ensures { OnOk result (owings_told owings.new.items
        ≡ owings_told owings.old.items ++ keyed_children node.now tree) }
{
    let keyed = Header {
        owner: tree,
        ..node.header()
    };
    owings_under(&keyed, node, false, owings)
}

/// What changes where a subvolume copies a node, beside the reference to the copy.
pub(crate) fn lists_of_copy(refs: &Extents, node: &Node, tree: RootId) -> Result<Lists, NoMemory>
    ensures exact { IfOk result (λ lists. exchange_told lists ≡ exchange_by_copy (book_of refs.now) tree node.now) }
    ensures some { IfOk result (λ lists. IfSome lists.full (λ at. 0 < length (references_at (book_of refs.now) at))) }
{
    let header = node.header();
    let at = header.address;
    let count = refs.how_many(at) as u64;
    let mut lists = way_lost(refs.allocator(), at, tree)?;
    match edits(count, refs.is_marked(at), header.owner, tree) {
        Edits::ShareOld => {
            lists.full = Some(at);
            owings_of_node(node, true, &mut lists.gains)?;
        }
        Edits::AddKeyed => put_keyed(node, tree, &mut lists.gains)?,
        Edits::TurnKeyed => {
            put_keyed(node, tree, &mut lists.gains)?;
            owings_of_node(node, true, &mut lists.losses)?;
        }
        Edits::TakeOver => {}
    }
    Ok(lists)
}

/// What changes where a subvolume no longer reaches a node.
pub(crate) fn lists_of_leaving(refs: &Extents, node: &Node, tree: RootId) -> Result<Lists, NoMemory>
    ensures exact { IfOk result (λ lists. exchange_told lists ≡ exchange_by_leaving (book_of refs.now) tree node.now) }
    ensures some { IfOk result (λ lists. IfSome lists.full (λ at. 0 < length (references_at (book_of refs.now) at))) }
{
    let header = node.header();
    let at = header.address;
    let full = refs.is_marked(at);
    let left = (refs.how_many(at) as u64).saturating_sub(1);
    let mut lists = way_lost(refs.allocator(), at, tree)?;
    match leaving(left, full, header.owner, tree) {
        Leaving::Goes => owings_of_node(node, full, &mut lists.losses)?,
        Leaving::TurnsFull => {
            lists.full = Some(at);
            owings_of_node(node, true, &mut lists.gains)?;
            put_keyed(node, header.owner, &mut lists.losses)?;
        }
        Leaving::Stays => {}
    }
    Ok(lists)
}

/// The case of a node that a subvolume reaches no more, by the references that are left.
pub(crate) fn parting(refs: &Extents, node: &Node, full: bool, tree: RootId) -> Leaving
    ensures { result ≡ parting_in (book_of refs.now) tree (record { node = node.now; full = full }) }
{
    let header = node.header();
    leaving(
        refs.how_many(header.address) as u64,
        full,
        header.owner,
        tree,
    )
}

/// What changes in that case.
pub(crate) fn lists_of_parting(
    refs: &Extents,
    node: &Node,
    full: bool,
    tree: RootId,
) -> Result<Lists, NoMemory>
    ensures exact { IfOk result (λ lists. exchange_told lists
        ≡ exchange_by_parting (book_of refs.now) tree (record { node = node.now; full = full })) }
    ensures some { IfOk result (λ lists. IfSome lists.full (λ at. 0 < length (references_at (book_of refs.now) at))) }
{
    let alloc = refs.allocator();
    let mut lists = Lists {
        full: None,
        gains: Vec::new(alloc),
        losses: Vec::new(alloc),
    };
    match parting(refs, node, full, tree) {
        Leaving::Goes => owings_of_node(node, full, &mut lists.losses)?,
        Leaving::TurnsFull => {
            let header = node.header();
            lists.full = Some(header.address);
            owings_of_node(node, true, &mut lists.gains)?;
            put_keyed(node, header.owner, &mut lists.losses)?;
        }
        Leaving::Stays => {}
    }
    Ok(lists)
}
