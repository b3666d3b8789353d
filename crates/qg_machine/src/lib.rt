//! The machine that a script runs: each command's refusals, its step, and whole runs. It has definitions and no code.
#![tactic(auto)]
