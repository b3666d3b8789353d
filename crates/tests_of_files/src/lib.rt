//! Tests of trees read and begun, and of those that a commit lays: what no clause says, and answers worked out by hand.
#![tactic(auto)]

#[cfg(test)]
mod descent;
#[cfg(test)]
mod exchange;
#[cfg(test)]
mod ground;
#[cfg(test)]
mod inodes;
#[cfg(test)]
mod other_trees;
#[cfg(test)]
mod snap;
