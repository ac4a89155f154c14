// The chart and its depths, filled by rounds.
#![tactic(auto)]

mod tables; // tables.rt: what is worked out once before the first round
mod prefix; // prefix.rt: where a rule's symbols can end
mod commit; // commit.rt: the end of a round
pub mod rounds; // rounds.rt: rounds over the rules, until one adds nothing
