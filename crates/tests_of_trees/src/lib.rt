//! Tests of trees that are edited, and of trees that are built of items: what no clause says, and answers worked out by
//! hand.
#![tactic(auto)]

#[cfg(test)]
mod built;
#[cfg(test)]
mod calls;
#[cfg(test)]
mod flips;
#[cfg(test)]
mod floors;
#[cfg(test)]
mod many;
#[cfg(test)]
mod plain;
