// What the rules do to the rows of one farm, on the farm's block of the lent table and on the lent plan.
#![tactic(auto)]

pub mod answer; // answer.rt: a request has its answer
pub mod refuse; // refuse.rt: an answer that may close the row
