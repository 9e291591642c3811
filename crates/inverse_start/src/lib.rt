// The Rust's inverse before its search: the runs at both ends of a table, the value 0, and where the search begins.
#![tactic(auto)]

pub mod inside;
