// Printed lines: decimal numbers and words, printed into a row.
#![tactic(auto)]

pub mod listing; // listing.rt: prints the lines of facts, of marks and of nodes
pub mod writing; // writing.rt: the page; prints bytes, numbers with spaces, a line
