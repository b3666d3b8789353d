use qg_num::{Counters, Generation, GroupId, Sequence};

/// A quota group (btrfs-qgroup(8)).
#[derive(Clone, Copy)]
pub struct Group {
    /// Its stored counters, in bytes.
    pub counters: Counters,
    /// The limit on referenced bytes, if one is set.
    pub max_rfer: Option<u64>,
    /// The limit on exclusive bytes, if one is set.
    pub max_excl: Option<u64>,
    /// The generation of the commit that last changed the counters.
    pub stamp: Generation,
}

/// Quota while it is on (btrfs-quota(8)).
#[derive(Drop)]
pub struct Quota {
    /// The groups, ascending by number.
    pub groups: Sequence<(GroupId, Group)>,
    /// The relations, each a member and its parent, ascending.
    pub pairs: Sequence<(GroupId, GroupId)>,
}
