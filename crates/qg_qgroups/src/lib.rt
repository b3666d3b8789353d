//! Quota groups: the relations between them, their limits, counters, and what is held for reservations.
#![tactic(auto)]

mod building;
mod changing;
mod fault;
mod groups;
mod hierarchy;
mod judging;
mod limits;
mod numbers;
mod pairs;
mod parts;
mod refusing;
mod state;

pub use fault::HierFault;
pub use hierarchy::{Hierarchy, PairList, RootList};
pub use judging::ReservationAnswer;
pub use limits::Limits;
pub use refusing::{refusal_of, refusal_of_parents};
pub use state::QuotaState;
