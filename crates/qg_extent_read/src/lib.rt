//! What the extent tree has at one address: the record of what begins there, and the references to it.
#![tactic(auto)]

mod counting;
mod descent;
mod heads;
mod keys;
mod leaf;
mod parts;
mod reader;
mod reading;
mod references;
mod saying;

pub use counting::count_at;
pub use heads::head_at;
pub use parts::parts_at;
pub use reader::ItemReader;
pub use reading::read_items;
pub use references::refs_at;
