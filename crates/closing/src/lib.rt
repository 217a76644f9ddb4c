// What every entry and every closing goes through, on one farm's block of the lent table and on the lent plan.
// Block, plan and site stay three parameters, here and above: the table comes from C as bytes, and a struct that held the two `&mut` would
// have each contract promise besides that they are still the same two.
#![tactic(auto)]

pub mod close; // close.rt: rows close
pub mod say; // say.rt: an entry on one of the farm's rows
