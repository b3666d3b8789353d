// A book of references, after some came and others went.
ghost use Rattle.std.specs.Prelude.{◌≡◌, ◌<◌, None, IfOk, IfSome, length};
ghost use Rattle.qg_refs.specs.Book.{references_at};
ghost use Rattle.qg_weighed.specs.Table.{book_of};
ghost use Rattle.qg_tree_backrefs.specs.Exchange.{CanExchange, Exchanges, IsMarked, exchange_told};

use crate::coming::{Coming, give_first};
use crate::giving::give_all;
use crate::lists::Lists;
use crate::taking::take_all;
use qg_num::{Address, NoMemory};
use qg_weighed::Weighed;

/// Marks a node as full, if there is one to be.
fn mark_full(refs: &mut Weighed, full: Option<Address>)
    requires { IfSome full (λ at. 0 < length (references_at (book_of refs.old.refs) at)) }
    ensures marked { IsMarked (book_of refs.old.refs) (book_of refs.new.refs) full }
    ensures held { refs.new.held ≡ refs.old.held }
{
    if let Some(at) = full {
        refs.mark(at);
    }
}

/// Gives and takes references. What can't be done is left alone, and the answer is the address of the first such.
///
/// What comes is given first, so that nothing that keeps a reference is forgotten meanwhile.
pub(crate) fn exchange(
    refs: &mut Weighed,
    lists: &Lists,
    coming: Option<Coming>,
) -> Result<Option<Address>, NoMemory>
    requires { IfSome lists.now.full (λ at. 0 < length (references_at (book_of refs.old.refs) at)) }
    ensures done { IfOk result (λ misfit. misfit ≡ None
        → Exchanges (book_of refs.old.refs) (book_of refs.new.refs) (exchange_told lists.now) coming) }
    ensures proper { CanExchange (book_of refs.old.refs) (exchange_told lists.now) coming
        → IfOk result (λ misfit. misfit ≡ None) }
    ensures held { refs.new.held ≡ refs.old.held }
{
    let _before = refs.len();
    mark_full(refs, lists.full);
    let given = give_all(refs, lists.gains.as_slice())?;
    let first = give_first(refs, &coming)?;
    let taken = take_all(refs, lists.losses.as_slice());
    let _after = refs.len();
    Ok(given.or(first).or(taken))
}
