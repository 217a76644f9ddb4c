// What comes in: the verdict on a header.
#![tactic(auto)]

pub mod header;
