// The keys of a node, which are those of its items or of its pointers.
ghost use Rattle.std.specs.Prelude.{◌≡◌, ◌&&◌, map, IsTrue};
ghost use Rattle.qg_node.specs.Nodes.{is_ascending};
ghost use Rattle.qg_image.specs.IsShaped.{is_first};
ghost use Rattle.qg_image.specs.Walk.{begins_at, ends_before};

use qg_node::Keyed;
use qg_num::Key;

/// Whether the first of some keys is this one.
pub(crate) fn is_first<T: Keyed>(key: Key, list: &[T]) -> bool
    ensures { result ≡ is_first key (map T.key_of list.now) }
{
    match list.first() {
        None => false,
        Some(first) => first.key() == key,
    }
}

/// Whether keys that ascend begin at `from`, if it is told, and end before `to`, if that is told.
pub(crate) fn are_in_range<T: Keyed>(from: Option<Key>, to: Option<Key>, list: &[T]) -> bool
    requires { IsTrue (is_ascending (map T.key_of list.now)) }
    ensures { result ≡ (begins_at from (map T.key_of list.now) && ends_before to (map T.key_of list.now)) }
{
    begin_at(from, list) && end_before(to, list)
}

// None comes before the first of them.
fn begin_at<T: Keyed>(from: Option<Key>, list: &[T]) -> bool
    requires { IsTrue (is_ascending (map T.key_of list.now)) }
    ensures { result ≡ begins_at from (map T.key_of list.now) }
{
    match (from, list.first()) {
        (Some(from), Some(first)) => first.key() == from,
        _ => true,
    }
}

// None comes behind the last of them.
fn end_before<T: Keyed>(to: Option<Key>, list: &[T]) -> bool
    requires { IsTrue (is_ascending (map T.key_of list.now)) }
    ensures { result ≡ ends_before to (map T.key_of list.now) }
{
    match (to, list.last()) {
        (Some(to), Some(last)) => last.key().is_before(to),
        _ => true,
    }
}
