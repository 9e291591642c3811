// The Rust's inverse after a search without a hit: f64 steps to the position where a line reaches the value.
#![tactic(auto)]

pub mod inside;
