// What the counters by portions are.
ghost use Rattle.qg_qgroup_counts.specs.Laws.{GroupsAreDirect};

/// A law: where portions tell who reaches each element of a layout, the counters of those subvolumes that are a group's
/// members are its direct count, in any hierarchy (btrfs-qgroup(8), "referenced" and "exclusive").
pub fn groups_are_direct()
    ensures direct { GroupsAreDirect }
{}
