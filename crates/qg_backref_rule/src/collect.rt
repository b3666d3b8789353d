// What nodes and roots owe.
ghost use Rattle.std.specs.Prelude.{◌≡◌, ℕ, ◌++◌, ◌∷◌, [], map, Some, OnOk};
ghost use Rattle.std.specs.List.{flat_map};
ghost use Rattle.std.specs.Option.{option_map, option_to_list};
ghost use Rattle.qg_items.specs.declared.extent.Reference.TheVariants.{KeyedBlock};
ghost use Rattle.qg_node.specs.Nodes.{own_items, own_pointers};
ghost use Rattle.qg_image.specs.ItemMeaning.{file_part};
ghost use Rattle.qg_image.specs.declared.part.FilePart.TheVariants.{PieceOf};
ghost use Rattle.qg_image.specs.Owed.{owed_by_node, owed_by_part, owed_to_child};
ghost use Rattle.qg_backref_rule.specs.OwedLists.{owed_told, owing_told, owings_told};

use crate::owing::Owing;
use qg_items::Reference;
use qg_items::kind::EXTENT_DATA;
use qg_node::{Header, Item, Node, Pointer};
use qg_num::{Address, Ino, NoMemory, Piece, RootId};
use qg_tree_items::piece_of;

/// What a subvolume owes its root node, whose address is in bytes: a keyed reference (on-disk format,
/// "backreferences").
pub fn owing_of_root(tree: RootId, root: Address) -> Owing
    ensures { owing_told result ≡ record { address = root; reference = KeyedBlock tree } }
{
    Owing {
        address: root,
        reference: Reference::KeyedBlock { root: tree },
    }
}

/// Puts what a node owes at the end: keyed references of its owner or, where it is full, shared ones from itself
/// (on-disk format, "backreferences").
pub fn owings_of_node(node: &Node, full: bool, owings: &mut Vec<Owing>) -> Result<(), NoMemory>
    ensures { OnOk result (owings_told owings.new.items
        ≡ owings_told owings.old.items ++ owed_by_node (record { node = node.now; full = full })) }
{
    let header = node.header();
    owings_under(&header, node, full, owings)
}

/// Puts at the end what a node would owe under another header: that of a copy, or of the same node with another owner
/// (on-disk format, "backreferences").
pub fn owings_under(
    header: &Header,
    node: &Node,
    full: bool,
    owings: &mut Vec<Owing>,
) -> Result<(), NoMemory>
    ensures { OnOk result (owings_told owings.new.items ≡ owings_told owings.old.items
        ++ (map (λ pointer. owed_to_child header.now full pointer.child) (own_pointers node.now)
        ++ flat_map (λ item. owed_by_part header.now full (file_part item)) (own_items node.now))) }
{
    match node {
        Node::Leaf { items, .. } => owings_of_items(header, full, items.as_slice(), owings),
        Node::Inner { pointers, .. } => {
            owings_of_pointers(header, full, pointers.as_slice(), owings)
        }
    }
}

// Puts what a leaf with this header owes by its items at the end.
fn owings_of_items(
    header: &Header,
    full: bool,
    items: &[Item],
    owings: &mut Vec<Owing>,
) -> Result<(), NoMemory>
    ensures { OnOk result (owings_told owings.new.items
        ≡ owings_told owings.old.items ++ flat_map (λ item. owed_by_part header.now full (file_part item)) items.now) }
{
    for item in items {
        if let Some((extent, reference)) = owed_by_item(header, full, item) {
            owings.push(Owing {
                address: extent,
                reference,
            })?;
        }
    }
    Ok(())
}

// Puts what an inner node with this header owes to its children at the end.
fn owings_of_pointers(
    header: &Header,
    full: bool,
    pointers: &[Pointer],
    owings: &mut Vec<Owing>,
) -> Result<(), NoMemory>
    ensures { OnOk result (owings_told owings.new.items
        ≡ owings_told owings.old.items ++ map (λ pointer. owed_to_child header.now full pointer.child) pointers.now) }
{
    for pointer in pointers {
        let reference = reference_to_child(header, full);
        owings.push(Owing {
            address: pointer.child,
            reference,
        })?;
    }
    Ok(())
}

// The reference that a node with this header owes to each of its children.
fn reference_to_child(header: &Header, full: bool) -> Reference
    ensures { (child : ℕ) → owed_to_child header.now full child ≡ record { address = child; reference = result } }
{
    if full {
        Reference::SharedBlock {
            parent: header.address,
        }
    } else {
        Reference::KeyedBlock { root: header.owner }
    }
}

// What a leaf with this header owes by an item: a reference to the extent that a piece names, with its address.
fn owed_by_item(header: &Header, full: bool, item: &Item) -> Option<(Address, Reference)>
    ensures { option_to_list (option_map owed_told result) ≡ owed_by_part header.now full (file_part item.now) }
{
    if item.key.kind != EXTENT_DATA {
        return None;
    }
    let Some(piece) = piece_of(item) else {
        return None;
    };
    let ino = Ino::new(item.key.objectid);
    Some((piece.extent, reference_of_piece(header, full, ino, &piece)))
}

// The reference that a leaf with this header owes by a piece of a file.
fn reference_of_piece(header: &Header, full: bool, ino: Ino, piece: &Piece) -> Reference
    ensures { owed_by_part header.now full (Some (PieceOf ino piece.now))
        ≡ record { address = piece.now.extent; reference = result } ∷ [] }
{
    if full {
        Reference::SharedData {
            parent: header.address,
        }
    } else {
        Reference::KeyedData {
            root: header.owner,
            ino,
            offset: piece.position.wrapping_sub(piece.offset),
        }
    }
}
