// The moves of one farm on its own block of the lent table: each is the model's move.
#![tactic(auto)]

pub mod closed; // closed.rt: peer closed, link lost
pub mod connect; // connect.rt: a free row opens
