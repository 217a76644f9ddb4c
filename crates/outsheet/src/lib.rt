// The output sheet of a list of entries, and what the items of a plan say as entries: definitions in specs/, laws in proofs/. There is nothing
// to run; entry_writer and sheet_writer write it.
#![tactic(auto)]
