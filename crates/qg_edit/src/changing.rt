// An edit of one leaf.
ghost use Rattle.std.specs.Prelude.{◌≡◌, ◌<◌, IfOk, IfErr, OnOk, OnErr, length, map, slice_get, None, Some};
ghost use Rattle.qg_node.specs.declared.item.Item.{Item as ItemValue};
ghost use Rattle.qg_node.specs.NodeText.{IsNode, IsNodeSize};
ghost use Rattle.qg_node.specs.Nodes.{own_items};
ghost use Rattle.qg_shape.specs.Filled.{HasShortBodies};
ghost use Rattle.qg_shape.specs.Parts.{IsLeaf, with_items};
ghost use Rattle.qg_shape.specs.Places.{GoesAt};
ghost use Rattle.qg_blocks.specs.NodesFound.{BreaksNone};
ghost use Rattle.qg_edit.specs.Edits.{CanChange, CanEdit, IsShort, changed, edited, growth_of};
ghost use Rattle.qg_edit.specs.Answering.{AnswersBy, IsBrokenByChange, IsChangeable};
ghost use Rattle.qg_edit.specs.Outcome.{IsLeftOf, IsNodeFor, IsOldOrCleared};
ghost use Rattle.qg_edit.specs.declared.edit.Change.TheVariants.{Insert, Replace, Remove};

use crate::clearing::clear;
use crate::cutting::{cut, misfit};
use crate::{Change, Edit};
use qg_node::{Body, Item, Node};
use qg_num::{BlockFault, Key};
use qg_shape::{find_item, insert_item, remove_item, replace_body};

/// Edits a leaf. Where it then has too much it keeps a front, and the answer has the rest, which lies nowhere yet.
///
/// `Image` names the leaf. It comes with the rule `refs` exactly where the leaf isn't what the edit relies on, and else
/// with `item` exactly where it then has too much, and a body of more than 1024 bytes. After an `Err` the leaf is as it
/// was, or empty.
pub fn edit_leaf(leaf: &mut Node, nodesize: u32, edit: Edit) -> Result<Option<Node>, BlockFault>
    requires size { IsNodeSize nodesize }
    requires leaf { IsLeaf leaf.old × IsNode nodesize leaf.old }
    requires short { IsShort edit.change }
    ensures edited { IfOk result (IsLeftOf nodesize leaf.old (with_items leaf.old (edited edit (own_items leaf.old)))
        leaf.new) }
    ensures can { OnOk result (CanEdit edit (own_items leaf.old)) }
    ensures answers { AnswersBy (IsChangeable nodesize edit.key edit.change leaf.old)
        (IsBrokenByChange nodesize edit.key edit.change leaf.old) result }
    ensures node { IsNodeFor nodesize leaf.old leaf.new }
    ensures whole { growth_of edit.change ≡ 0 → IfOk result (λ rest. rest ≡ None) }
    ensures sound { CanEdit edit (own_items leaf.old) → HasShortBodies leaf.old → BreaksNone result }
    ensures err { OnErr result (IsOldOrCleared leaf.old leaf.new) }
{
    let Edit { key, change } = edit;
    match change {
        Change::Insert(body) => insert(leaf, nodesize, key, body),
        Change::Replace(body) => replace(leaf, nodesize, key, body),
        Change::Remove => remove(leaf, nodesize, key),
        Change::Clear => {
            clear(leaf);
            Ok(None)
        }
    }
}

// The place of the item with a key; where there is none, the place that it would be put at.
fn place_of(leaf: &Node, nodesize: u32, key: Key) -> Result<usize, usize>
    requires leaf { IsLeaf leaf.now }
    requires sound { IsNode nodesize leaf.now }
    ensures found { IfOk result (λ place. slice_get (map (λ item. item.key) (own_items leaf.now)) place ≡ Some key) }
    ensures absent { IfErr result (λ place. GoesAt (map (λ item. item.key) (own_items leaf.now)) key place) }
{
    match leaf {
        Node::Leaf { items, .. } => find_item(items.as_slice(), key),
        Node::Inner { .. } => unreachable!(),
    }
}

fn insert(leaf: &mut Node, nodesize: u32, key: Key, body: Body) -> Result<Option<Node>, BlockFault>
    requires size { IsNodeSize nodesize }
    requires leaf { IsLeaf leaf.old }
    requires sound { IsNode nodesize leaf.old }
    requires short { IsShort (Insert body) }
    ensures edited { IfOk result
        (IsLeftOf nodesize leaf.old (with_items leaf.old (changed key (Insert body) (own_items leaf.old))) leaf.new) }
    ensures can { OnOk result (CanChange key (Insert body) (own_items leaf.old)) }
    ensures answers { AnswersBy (IsChangeable nodesize key (Insert body) leaf.old)
        (IsBrokenByChange nodesize key (Insert body) leaf.old) result }
    ensures node { IsNodeFor nodesize leaf.old leaf.new }
    ensures sound { CanChange key (Insert body) (own_items leaf.old) → HasShortBodies leaf.old → BreaksNone result }
    ensures err { OnErr result (IsOldOrCleared leaf.old leaf.new) }
{
    match place_of(leaf, nodesize, key) {
        Ok(_) => Err(misfit(leaf)),
        Err(place) => {
            insert_item(leaf, place, Item { key, body })?;
            cut(leaf, nodesize, place, true)
        }
    }
}

fn replace(leaf: &mut Node, nodesize: u32, key: Key, body: Body) -> Result<Option<Node>, BlockFault>
    requires size { IsNodeSize nodesize }
    requires leaf { IsLeaf leaf.old }
    requires sound { IsNode nodesize leaf.old }
    requires short { IsShort (Replace body) }
    ensures edited { IfOk result
        (IsLeftOf nodesize leaf.old (with_items leaf.old (changed key (Replace body) (own_items leaf.old))) leaf.new) }
    ensures can { OnOk result (CanChange key (Replace body) (own_items leaf.old)) }
    ensures answers { AnswersBy (IsChangeable nodesize key (Replace body) leaf.old)
        (IsBrokenByChange nodesize key (Replace body) leaf.old) result }
    ensures node { IsNodeFor nodesize leaf.old leaf.new }
    ensures sound { CanChange key (Replace body) (own_items leaf.old) → HasShortBodies leaf.old → BreaksNone result }
    ensures err { OnErr result (IsOldOrCleared leaf.old leaf.new) }
{
    match place_of(leaf, nodesize, key) {
        Ok(place) => {
            let has_grown = body.len() > body_length(leaf, place);
            replace_body(leaf, place, body);
            cut(leaf, nodesize, place, has_grown)
        }
        Err(_) => Err(misfit(leaf)),
    }
}

// How many bytes the body of an item of a leaf has.
fn body_length(leaf: &Node, place: usize) -> usize
    requires leaf { IsLeaf leaf.now }
    requires place { place < length (own_items leaf.now) }
    ensures { (item : ItemValue) → slice_get (own_items leaf.now) place ≡ Some item → result ≡ length item.body }
{
    match leaf {
        Node::Leaf { items, .. } => items.as_slice()[place].body.len(),
        Node::Inner { .. } => unreachable!(),
    }
}

fn remove(leaf: &mut Node, nodesize: u32, key: Key) -> Result<Option<Node>, BlockFault>
    requires size { IsNodeSize nodesize }
    requires leaf { IsLeaf leaf.old }
    requires sound { IsNode nodesize leaf.old }
    ensures edited { IfOk result
        (IsLeftOf nodesize leaf.old (with_items leaf.old (changed key Remove (own_items leaf.old))) leaf.new) }
    ensures can { OnOk result (CanChange key Remove (own_items leaf.old)) }
    ensures answers { AnswersBy (IsChangeable nodesize key Remove leaf.old)
        (IsBrokenByChange nodesize key Remove leaf.old) result }
    ensures node { IsNodeFor nodesize leaf.old leaf.new }
    ensures whole { IfOk result (λ rest. rest ≡ None) }
    ensures sound { CanChange key Remove (own_items leaf.old) → HasShortBodies leaf.old → BreaksNone result }
    ensures err { OnErr result (IsOldOrCleared leaf.old leaf.new) }
{
    match place_of(leaf, nodesize, key) {
        Ok(place) => {
            let _item = remove_item(leaf, place);
            Ok(None)
        }
        Err(_) => Err(misfit(leaf)),
    }
}
