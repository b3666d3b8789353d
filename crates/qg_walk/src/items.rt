// The items of a leaf.
ghost use Rattle.std.specs.Prelude.{◌≡◌, ◌++◌, All, OnOk, IsErrOf};
ghost use Rattle.std.specs.List.{list_all};
ghost use Rattle.qg_num.specs.Fields.{IsBytes};
ghost use Rattle.qg_num.specs.declared.rule.Rule.TheVariants as rule;
ghost use Rattle.qg_image.specs.Failure.{unless};
ghost use Rattle.qg_image.specs.Walk.{is_item_of};
ghost use Rattle.qg_walk.specs.Fault.{FailsAs};
ghost use Rattle.qg_walk.specs.Added.{AddsSaid};

use crate::OpenFault;
use qg_node::Item;
use qg_num::{Address, Generation, Rule};
use qg_tree_items::{PartList, TreePart};

/// Puts what the items of the leaf at an address say behind what others said, where the tree may hold each.
pub fn add_said<P: TreePart, L: PartList<P>>(
    generation: Generation,
    address: Address,
    items: &[Item],
    parts: &mut L,
) -> Result<(), OpenFault>
    ensures failure { FailsAs result (unless (list_all (is_item_of P.tree generation) items.now) rule.Item address) }
    ensures said { OnOk result (AddsSaid P.meaning items.now (L.list parts.old) (L.list parts.new)) }
    ensures bytes { OnOk result (All (λ item. IsBytes item.body) items.now) }
    ensures disk { IsErrOf result OpenFault.Disk → ⊥ }
{
    are_of_bytes(items);
    for item in items {
        match P::read(item, generation) {
            None => {
                return Err(OpenFault::Broken {
                    rule: Rule::Item,
                    address,
                });
            }
            Some(part) => parts.push(part)?,
        }
    }
    Ok(())
}

// The bodies of items are bytes.
fn are_of_bytes(items: &[Item])
    ensures { All (λ item. IsBytes item.body) items.now }
{
    for item in items {
        are_bytes(item.body.as_slice());
    }
}

// What a slice of bytes has.
fn are_bytes(bytes: &[u8])
    ensures { IsBytes bytes.now }
{
    let _count = bytes.len();
}
