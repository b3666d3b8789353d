//! Laws over definitions: what a crash leaves of a disk, of the two superblocks, of slots, and of the state that an
//! image stands for. It has no code.
#![tactic(auto)]

mod crashes;
mod images;
mod nodes;
mod superblocks;

pub use crashes::{
    last_write_to_a_place, moments_between_calls, the_premise_from_a_later_moment,
    what_is_held_is_no_chance, what_is_not_written_stays,
};
pub use images::{
    a_crash_leaves_one_of_the_commits, a_crash_leaves_the_old_state_or_the_new_one,
    a_repair_leaves_the_state, only_what_is_held_is_read, what_stands_is_counted,
};
pub use nodes::slots_stay_or_are_settled;
pub use superblocks::{a_repair_keeps_what_counts, two_places_leave_a_valid_one};
