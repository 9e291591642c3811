// Where drives and densities are drawn, in the plot and the svg of `picture` alike.
#![tactic(auto)]

pub mod inside;
pub mod place;
