//! Words for the outside world that contracts cite: why a call may fail, and what was done to a disk. It has no code.
#![tactic(auto)]
