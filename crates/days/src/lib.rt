// The worked days of document 01 that are proved. The table stands in specs/Table.antt, the one claim over it in proofs/Claim.antt;
// there is nothing to run.
#![tactic(auto)]
