// The clean text of a constraint file.
#![tactic(auto)]

pub mod claims;
