// Grammar bytes: how they are read, and what they stand for.
#![tactic(auto)]

mod chains; // chains.rt: rule numbers on chains
pub mod reading; // reading.rt: three sections, accepted or refused
pub mod rules; // rules.rt: the rule that stands at a position
pub mod view; // view.rt: the checked grammar as a view of the caller's bytes
