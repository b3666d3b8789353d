//! The lines of a script, the command of each, and the text of replies. It has definitions and no code.
#![tactic(auto)]
