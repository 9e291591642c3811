// The whole square root, and a power worked out by sixteen of them.
#![tactic(auto)]

pub mod inside;
