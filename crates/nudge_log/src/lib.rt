// A log of granted nudges: how many it holds, each as one word, and what a list of them does to a table.
#![tactic(auto)]

pub mod inside;
