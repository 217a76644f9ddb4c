// What the calls do once their refusals are past: a farm's block of the table, or a row's room, is lent alone to the move of that farm, and
// the output sheet is written from its entries.
#![tactic(auto)]

pub mod at; // at.rt: what is asked of a farm's block
pub mod closed; // closed.rt: peer closed, link lost
pub mod connect; // connect.rt: connect
