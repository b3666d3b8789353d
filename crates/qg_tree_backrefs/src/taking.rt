// References that are taken.
ghost use Rattle.std.specs.Prelude.{◌≡◌, ◌∷◌, [], true, None};
ghost use Rattle.qg_weighed.specs.Table.{book_of};
ghost use Rattle.qg_backref_rule.specs.OwedLists.{owing_told, owings_told};
ghost use Rattle.qg_tree_backrefs.specs.Exchange.{CanTake, Takes};

use qg_backref_rule::Owing;
use qg_num::Address;
use qg_weighed::Weighed;

/// Takes references away, in this order. One that is not there is left alone; the answer is the address of the first
/// such, in bytes.
pub(crate) fn take_all(refs: &mut Weighed, owings: &[Owing]) -> Option<Address>
    ensures done { result ≡ None → Takes (book_of refs.old.refs) (book_of refs.new.refs) (owings_told owings.now) }
    ensures proper { CanTake (book_of refs.old.refs) (owings_told owings.now) → result ≡ None }
    ensures held { refs.new.held ≡ refs.old.held }
{
    let mut misfit = None;
    for owing in owings {
        if !take(refs, owing) {
            misfit = misfit.or(Some(owing.address));
        }
    }
    misfit
}

/// Takes one reference away, and whether it was there.
fn take(refs: &mut Weighed, owing: &Owing) -> bool
    ensures done { result ≡ true → Takes (book_of refs.old.refs) (book_of refs.new.refs) (owing_told owing.now ∷ []) }
    ensures proper { CanTake (book_of refs.old.refs) (owing_told owing.now ∷ []) → result ≡ true }
    ensures held { refs.new.held ≡ refs.old.held }
{
    if refs.count_one(owing.address, &owing.reference) == 0 {
        return false;
    }
    refs.drop_at(owing.address, &owing.reference);
    true
}
