use qg_num::{Address, GroupId, Rule, Which};

/// Why an image is not sound (this project's own).
#[derive(Clone, Copy, PartialEq, Eq)]
pub enum Failure {
    /// A rule is broken, at an address in bytes.
    Broken {
        rule: Rule,
        address: Address,
    },
    /// A group's stored counter is not the direct count, both in bytes.
    Differs {
        group: GroupId,
        which: Which,
        stored: u64,
        counted: u64,
    },
}
