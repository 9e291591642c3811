// What the tags of ICC.1 have in common: big-endian numbers, the signature, and the reserved bytes after it.
#![tactic(auto)]

pub mod inside;
