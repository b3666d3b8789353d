// References that are given.
ghost use Rattle.std.specs.Prelude.{◌≡◌, ◌∷◌, [], true, IfOk, None};
ghost use Rattle.qg_weighed.specs.Table.{book_of};
ghost use Rattle.qg_backref_rule.specs.OwedLists.{owing_told, owings_told};
ghost use Rattle.qg_tree_backrefs.specs.Exchange.{CanGive, Gives};

use qg_backref_rule::Owing;
use qg_num::{Address, NoMemory};
use qg_refs::greatest_count;
use qg_weighed::Weighed;

/// Gives references to what is known, in this order. One that is there as often as it may be, or that leads to what is
/// not known, is left alone; the answer is the address of the first such, in bytes.
pub(crate) fn give_all(refs: &mut Weighed, owings: &[Owing]) -> Result<Option<Address>, NoMemory>
    ensures done { IfOk result (λ misfit. misfit ≡ None
        → Gives (book_of refs.old.refs) (book_of refs.new.refs) (owings_told owings.now)) }
    ensures proper { CanGive (book_of refs.old.refs) (owings_told owings.now)
        → IfOk result (λ misfit. misfit ≡ None) }
    ensures held { refs.new.held ≡ refs.old.held }
{
    let mut misfit = None;
    for owing in owings {
        if !give(refs, owing)? {
            misfit = misfit.or(Some(owing.address));
        }
    }
    Ok(misfit)
}

/// Gives one reference, and whether it could.
fn give(refs: &mut Weighed, owing: &Owing) -> Result<bool, NoMemory>
    ensures done { IfOk result (λ given. given ≡ true
        → Gives (book_of refs.old.refs) (book_of refs.new.refs) (owing_told owing.now ∷ [])) }
    ensures proper { CanGive (book_of refs.old.refs) (owing_told owing.now ∷ [])
        → IfOk result (λ given. given ≡ true) }
    ensures held { refs.new.held ≡ refs.old.held }
{
    let Some(what) = refs.known(owing.address) else {
        return Ok(false);
    };
    if refs.count_one(owing.address, &owing.reference) >= greatest_count(&owing.reference) {
        return Ok(false);
    }
    refs.add_one(owing.address, what, owing.reference)?;
    Ok(true)
}
