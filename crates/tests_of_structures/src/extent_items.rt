// What no clause says: that edits of items are answered, and items read, with ample memory.
ghost use Rattle.std.specs.Prelude.{◌≡◌};
ghost use Rattle.qg_items.specs.declared.extent.Reference.TheVariants.{KeyedBlock};

use qg_edit::{Change, Edit};
use qg_extent_items::{
    Standing, edit_to_mark, edits_to_add, edits_to_drop, head_in, references_in, standing_in,
};
use qg_extents::Head;
use qg_items::Reference;
use qg_node::{Item, Items};
use qg_num::{Address, Generation, RootId};
use qg_refs::What;
use std::alloc::Global;
use std::test::Fail;

// The root node of subvolume 5, in the third slot.
const LEAF: u64 = 1081344;

fn of_tree(root: u64) -> Reference
    ensures { result ≡ KeyedBlock root }
{
    Reference::KeyedBlock {
        root: RootId::new(root),
    }
}

// A leaf of the first generation.
fn leaf() -> What {
    What {
        bytes: 16384,
        level: Some(0),
        generation: Generation::new(1),
    }
}

// The item that an edit puts in.
fn item_of(edit: Edit) -> Result<Item, Fail> {
    let Edit { key, change } = edit;
    match change {
        Change::Insert(body) => Ok(Item { key, body }),
        Change::Replace(body) => Ok(Item { key, body }),
        Change::Remove => Err(Fail::from("an item goes")),
        Change::Clear => Err(Fail::from("all items go")),
    }
}

// Whether an edit takes an item out.
fn takes_out(edit: &Edit) -> bool {
    match edit.change {
        Change::Remove => true,
        _ => false,
    }
}

// The items of the leaf with its first reference.
fn first_items(alloc: Global) -> Result<Items, Fail> {
    let absent = Standing {
        count: 0,
        number: 0,
    };
    let edits = edits_to_add(alloc, Address::new(LEAF), leaf(), of_tree(5), None, absent)?;
    let mut items = Items::new(alloc);
    items.push(item_of(edits.of_record)?)?;
    items.push(item_of(edits.of_reference)?)?;
    Ok(items)
}

// What their record tells.
fn head_of_items(items: &Items) -> Result<Head, Fail> {
    match head_in(16384, Generation::new(1), items.as_slice()) {
        Some(head) => Ok(head),
        None => Err(Fail::from("there is no record")),
    }
}

#[test]
fn a_leaf_is_recorded(rt: HostRuntime) -> Result<(), Fail> {
    let items = first_items(rt.alloc())?;
    let head = head_of_items(&items)?;
    assert!(rt; head.refs == 1 && !head.full && head.what == leaf());
    let standing = standing_in(Address::new(LEAF), &of_tree(5), items.as_slice());
    assert!(rt; standing.count == 1);
    let references = references_in(rt.alloc(), items.as_slice())?;
    assert!(rt; references.len() == 1);
    Ok(())
}

#[test]
fn a_leaf_is_marked_and_given_up(rt: HostRuntime) -> Result<(), Fail> {
    let at = Address::new(LEAF);
    let items = first_items(rt.alloc())?;
    let head = head_of_items(&items)?;
    let mut marked = Items::new(rt.alloc());
    marked.push(item_of(edit_to_mark(rt.alloc(), at, head)?)?)?;
    let full = head_of_items(&marked)?;
    assert!(rt; full.full);
    let standing = standing_in(at, &of_tree(5), items.as_slice());
    let edits = edits_to_drop(rt.alloc(), at, of_tree(5), full, standing)?;
    assert!(rt; takes_out(&edits.of_reference) && takes_out(&edits.of_record));
    Ok(())
}
