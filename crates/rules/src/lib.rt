// "A table breaks the rules if: ..": rule 4 over the lent table and the sheet, asked before every call but the start. The first rule that
// is found broken ends it.
#![tactic(auto)]

pub mod block; // block.rt: one farm's block
pub mod whole_table; // whole_table.rt: all blocks
