// The lines before the first `c` or `p`: version, expectation and declarations.
#![tactic(auto)]

pub mod declarations;
mod declaring;
pub mod header;
