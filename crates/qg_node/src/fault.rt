// Why bytes are no node.
ghost use Rattle.std.specs.Prelude.{◌≡◌};
ghost use Rattle.qg_node.specs.declared.fault.ReadFault.TheVariants.{NoMemory};

use qg_num::Rule;
use std::alloc::{AllocError, AllocFailed};

/// The first rule that bytes break as a node, in the order in which the rules are looked at (this project's own).
#[derive(Clone, Copy, Debug, PartialEq, Eq)]
pub enum NodeFault {
    /// The checksum field is not the checksum followed by zeros.
    Csum,
    /// The header names another address.
    Place,
    /// The level is greater than 7.
    Level,
    /// A node above the leaves has no pointer.
    Empty,
    /// Item headers, bodies or pointers do not fit, or a body does not begin where it should.
    Bounds,
    /// Keys do not ascend strictly.
    Order,
    /// A byte that should be 0 is not.
    Slack,
}

impl NodeFault {
    ghost use Rattle.qg_node.specs.Rules.{rule_of};

    /// The rule of a sound image that is broken by such bytes.
    pub fn rule(self) -> Rule
        ensures { result ≡ rule_of self }
    {
        match self {
            NodeFault::Csum => Rule::Csum,
            NodeFault::Place => Rule::Place,
            NodeFault::Level => Rule::Level,
            NodeFault::Empty => Rule::Empty,
            NodeFault::Bounds => Rule::Bounds,
            NodeFault::Order => Rule::Order,
            NodeFault::Slack => Rule::Slack,
        }
    }
}

/// Why no node was read.
#[derive(Clone, Copy, Debug, PartialEq, Eq)]
pub enum ReadFault {
    /// The bytes are no node: the first rule that they break.
    Bad(NodeFault),
    /// Memory was refused.
    NoMemory,
}

impl From<AllocError> for ReadFault {
    ghost from_gives = { λ _ fault. fault ≡ NoMemory };

    fn from(_: AllocError) -> ReadFault {
        ReadFault::NoMemory
    }
}

impl<T: Drop> From<AllocFailed<T>> for ReadFault {
    ghost from_gives = { λ _ fault. fault ≡ NoMemory };

    fn from(_: AllocFailed<T>) -> ReadFault {
        ReadFault::NoMemory
    }
}
