// The face: one thin export for each of the library's calls, for C and Rust. An export's name is `bg_` and the
// library's own. An answer crosses as a struct of plain fields, the refusal's number first. Each contract is the
// library's promise, carried over to those fields. include/brassgroat.h says what each call means.
#![tactic(auto)]

pub mod curv_tags;
pub mod curves;
pub mod floats;
pub mod house_curve;
pub mod inverses;
pub mod logs;
pub mod lookups;
pub mod para_tags;
pub mod parametrics;
pub mod powers;
pub mod verdicts;
pub mod version;
