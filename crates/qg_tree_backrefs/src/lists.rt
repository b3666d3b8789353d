// What is gained and lost, in lists.
use qg_backref_rule::Owing;
use qg_num::Address;

/// What is to become of references: a node that becomes full, which references come, and which go.
#[derive(Drop)]
pub(crate) struct Lists {
    pub(crate) full: Option<Address>,
    pub(crate) gains: Vec<Owing>,
    pub(crate) losses: Vec<Owing>,
}
