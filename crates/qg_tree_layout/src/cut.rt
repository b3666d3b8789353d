// Where a list is cut so that its parts fit in nodes. Only weights are seen, in bytes.
ghost use Rattle.std.specs.Prelude.{◌≡◌, ◌<◌, ◌≤◌, ◌^◌, ℕ};
ghost use Rattle.std.specs.List.{All, sum_by};
ghost use Rattle.qg_tree_layout.specs.FillsNode.{FillsNode};

/// What takes bytes of a node: 1049 at most, as an item does with a body of 1024.
pub(crate) trait Weighed {
    ghost use Rattle.std.specs.Prelude.{◌≡◌, ◌≤◌, ℕ};

    ghost weight: { Self → ℕ };

    /// How many bytes it takes.
    fn weight(&self) -> u64
        requires { weight self.now ≤ 1049 }
        ensures { result ≡ weight self.now };
}

/// A front of a list.
#[derive(Clone, Copy)]
pub(crate) struct Cut {
    /// How many it has.
    pub count: usize,
    /// How many bytes they take.
    pub taken: u64,
}

/// How many bytes all of a list take.
pub(crate) fn total<T: Weighed>(list: &[T]) -> u64
    requires light { All (λ x. T.weight x ≤ 1049) list.now }
    requires small { sum_by T.weight list.now < 2 ^ 32 }
    ensures { result ≡ sum_by T.weight list.now }
{
    let mut total = 0;
    for x in list {
        total += x.weight();
    }
    total
}

/// The front of a list that goes into one node of so much room, where the whole list takes `total`.
///
/// It is the whole list where that fits. Else it is as much as fits, but for what the rest needs to fill a quarter.
pub(crate) fn first_cut<T: Weighed>(list: &[T], total: u64, room: u64) -> Cut
    requires light { All (λ x. T.weight x ≤ 1049) list.now }
    requires total { total ≡ sum_by T.weight list.now }
    requires small { total < 2 ^ 32 }
    requires wide { 2098 ≤ room }
    requires narrow { room < 2 ^ 32 }
    ensures { FillsNode T.weight list.now room result.count result.taken }
{
    if total <= room {
        return Cut {
            count: list.len(),
            taken: total,
        };
    }
    let mut taken = 0;
    for (i, x) in list.iter().enumerate() {
        let more = taken + x.weight();
        if more > room || 4 * more + room > 4 * total {
            return Cut { count: i, taken };
        }
        taken = more;
    }
    unreachable!()
}
