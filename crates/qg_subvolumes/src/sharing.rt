// References to children that others refer to already.
ghost use Rattle.std.specs.Prelude.{◌≡◌, ◌∷◌, [], IfErr, IfOk, OnOk};
ghost use Rattle.qg_num.specs.declared.fault.BlockFault.TheVariants.{Image};
ghost use Rattle.qg_num.specs.declared.rule.Rule.TheVariants.{Refs};
ghost use Rattle.qg_cow_refs.specs.Children.{keyed_children};
ghost use Rattle.qg_blocks.specs.Stopping.{NamesRule};
ghost use Rattle.qg_blocks.specs.NodesFound.{BreaksNone};
ghost use Rattle.qg_extents.specs.Table.{book_of};
ghost use Rattle.qg_backref_rule.specs.OwedLists.{owing_told, owings_told};
ghost use Rattle.qg_tree_backrefs.specs.Exchange.{CanGive, Gives};

use qg_backref_rule::{Owing, owings_under};
use qg_node::{Header, Node};
use qg_num::{Address, BlockFault, NoMemory, RootId, Rule};
use qg_tree_backrefs::TreeRefs;
use std::alloc::Global;

/// A keyed reference of a subvolume to each child of a node (on-disk format, "backreferences").
pub(crate) fn keyed_children(
    alloc: Global,
    node: &Node,
    tree: RootId,
) -> Result<Vec<Owing>, NoMemory>
    ensures { IfOk result (λ owings. owings_told owings.items ≡ keyed_children node.now tree) }
{
    let keyed = Header {
        owner: tree,
        ..node.header()
    };
    let mut owings = Vec::new(alloc);
    owings_under(&keyed, node, false, &mut owings)?;
    Ok(owings)
}

/// Gives references to what others refer to, in this order.
///
/// `Image` comes with `refs` and an address where nothing has a reference, or where this one is there as often as one
/// may be.
pub(crate) fn give_all(book: &mut TreeRefs, owings: &[Owing]) -> Result<(), BlockFault>
    ensures given { OnOk result (Gives (book_of book.old.refs) (book_of book.new.refs) (owings_told owings.now)) }
    ensures proper { CanGive (book_of book.old.refs) (owings_told owings.now) → BreaksNone result }
    ensures others { book.new ≡ record book.old { refs = book.new.refs } }
    ensures no_disk { IfErr result (λ fault. fault ≡ BlockFault.Disk → ⊥) }
    ensures refs { NamesRule result Refs }
{
    for owing in owings {
        give(book, owing)?;
    }
    Ok(())
}

// Gives one reference.
fn give(book: &mut TreeRefs, owing: &Owing) -> Result<(), BlockFault>
    ensures given { OnOk result (Gives (book_of book.old.refs) (book_of book.new.refs) (owing_told owing.now ∷ [])) }
    ensures proper { CanGive (book_of book.old.refs) (owing_told owing.now ∷ []) → BreaksNone result }
    ensures others { book.new ≡ record book.old { refs = book.new.refs } }
    ensures no_disk { IfErr result (λ fault. fault ≡ BlockFault.Disk → ⊥) }
    ensures refs { NamesRule result Refs }
{
    let at = owing.address;
    let Some(what) = book.refs().known(at) else {
        return Err(misfit_at(at));
    };
    if !book.name(at, what.bytes, owing.reference)? {
        return Err(misfit_at(at));
    }
    Ok(())
}

/// References are not what they should be at an address.
pub(crate) fn misfit_at(address: Address) -> BlockFault
    ensures { result ≡ Image Refs address }
{
    BlockFault::Image {
        rule: Rule::Refs,
        address,
    }
}
