// Whether keys ascend.
ghost use Rattle.std.specs.Prelude.{◌≡◌, ◌++◌, ◌-◌, ◌≤◌, length, map, slice_get, IsTrue};
ghost use Rattle.qg_node.specs.Nodes.{ascends_from, is_ascending};

use qg_node::{Keyed, Pointer};

/// Whether keys ascend from one list on to another, where each list's do.
pub(crate) fn are_joined<T: Keyed>(front: &[T], back: &[T]) -> bool
    requires front { IsTrue (is_ascending (map T.key_of front.now)) }
    requires back { IsTrue (is_ascending (map T.key_of back.now)) }
    ensures { result ≡ is_ascending (map T.key_of front.now ++ map T.key_of back.now) }
{
    match front {
        [] => true,
        [.., last] => match back {
            [] => true,
            [first, ..] => last.key().is_before(first.key()),
        },
    }
}

/// Whether keys of one pointer or two ascend.
#[tactic(auto, unfolding(qg_node::specs::Nodes::is_ascending, qg_node::specs::Nodes::ascends_from))]
pub(crate) fn do_ascend(pointers: &[Pointer]) -> bool
    requires { length pointers.now ≤ 2 }
    ensures { result ≡ is_ascending (map (λ pointer. pointer.key) pointers.now) }
{
    match pointers {
        [first, second] => first.key.is_before(second.key),
        _ => true,
    }
}
