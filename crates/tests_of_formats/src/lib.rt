//! Tests of disk, source and sink, of lists and of replies: what no clause says, and bytes worked out by hand.
#![tactic(auto)]

#[cfg(test)]
mod disk;
#[cfg(test)]
mod edge;
#[cfg(test)]
mod num;
#[cfg(test)]
mod script;
