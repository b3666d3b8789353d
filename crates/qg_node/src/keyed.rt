// What stands in the order of its keys.
ghost use Rattle.std.specs.Prelude.{◌≡◌, map, slice_get};
ghost use Rattle.qg_node.specs.Nodes.{ascends_from, is_ascending};

use crate::{Item, Pointer};
use qg_num::Key;

/// What has a key: an item, or a pointer.
pub trait Keyed {
    ghost use Rattle.std.specs.Prelude.{◌≡◌};
    ghost use Rattle.qg_num.specs.declared.key.Key.{Key};

    /// Its key.
    ghost key_of: { Self → Key };

    /// Its key.
    fn key(&self) -> Key
        ensures { result ≡ key_of self.now };
}

impl Keyed for Item {
    ghost key_of = { λ item. item.key };

    fn key(&self) -> Key {
        self.key
    }
}

impl Keyed for Pointer {
    ghost key_of = { λ pointer. pointer.key };

    fn key(&self) -> Key {
        self.key
    }
}

/// Whether each key is less than the next one.
#[tactic(auto, unfolding(crate::specs::Nodes::is_ascending))]
pub(crate) fn is_ascending<T: Keyed>(list: &[T]) -> bool
    ensures { result ≡ is_ascending (map T.key_of list.now) }
{
    match list.split_first() {
        None => true,
        Some((first, others)) => ascends_from(first.key(), others),
    }
}

#[tactic(auto, unfolding(crate::specs::Nodes::ascends_from))]
fn ascends_from<T: Keyed>(first: Key, others: &[T]) -> bool
    ensures { result ≡ ascends_from first (map T.key_of others.now) }
{
    let mut before = first;
    for other in others {
        let key = other.key();
        if !before.is_before(key) {
            return false;
        }
        before = key;
    }
    true
}

/// The key of the first, if there is one.
pub(crate) fn first_of<T: Keyed>(list: &[T]) -> Option<Key>
    ensures { result ≡ slice_get (map T.key_of list.now) 0 }
{
    match list {
        [] => None,
        [first, ..] => Some(first.key()),
    }
}
