//! Tests of nodes by address, of books of references, and of what groups count: what no clause says, and answers worked
//! out by hand.
#![tactic(auto)]

#[cfg(test)]
mod accounting;
#[cfg(test)]
mod blocks;
#[cfg(test)]
mod counted;
#[cfg(test)]
mod direct;
#[cfg(test)]
mod extent_items;
#[cfg(test)]
mod extents;
#[cfg(test)]
mod file_parts;
#[cfg(test)]
mod home;
#[cfg(test)]
mod tree_refs;
