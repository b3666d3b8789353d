//! The walk of one tree of an image: what its items say, or exactly why the tree is not sound.
#![tactic(auto)]

mod fault;
mod form;
mod items;
mod keys;
mod nodes;
mod root;
mod slot;
mod visiting;
mod walk;
mod walked;

pub use fault::OpenFault;
pub use form::{expected_below, form_failure, is_root_shaped, takes_a_quarter};
pub use items::add_said;
pub use nodes::NodeList;
pub use qg_tree_items as tree_items;
pub use root::root_told;
pub use visiting::visit;
pub use walk::walk_tree;
pub use walked::Walked;
