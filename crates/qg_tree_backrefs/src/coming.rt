// A node that comes.
ghost use Rattle.std.specs.Prelude.{◌≡◌, IfOk, None};
ghost use Rattle.qg_weighed.specs.Table.{book_of};
ghost use Rattle.qg_tree_backrefs.specs.Exchange.{Begins, IsNew};

use qg_num::{Address, NoMemory, RootId};
use qg_refs::{Reference, What};
use qg_weighed::Weighed;

/// A node to which a subvolume has the first reference (on-disk format, "backreferences").
#[derive(Clone, Copy)]
pub(crate) struct Coming {
    pub(crate) address: Address,
    pub(crate) what: What,
    pub(crate) tree: RootId,
}

/// Gives a node that comes its first reference. Where it has one already nothing changes, and the answer is the address
/// of the node.
pub(crate) fn give_first(
    refs: &mut Weighed,
    coming: &Option<Coming>,
) -> Result<Option<Address>, NoMemory>
    ensures done { IfOk result (λ misfit. misfit ≡ None
        → Begins (book_of refs.old.refs) (book_of refs.new.refs) coming.now) }
    ensures proper { IsNew (book_of refs.old.refs) coming.now → IfOk result (λ misfit. misfit ≡ None) }
    ensures held { refs.new.held ≡ refs.old.held }
{
    let Some(coming) = coming else {
        return Ok(None);
    };
    let _count = refs.len();
    if refs.known(coming.address).is_some() {
        return Ok(Some(coming.address));
    }
    let from = Reference::KeyedBlock { root: coming.tree };
    refs.add_one(coming.address, coming.what, from)?;
    Ok(None)
}
