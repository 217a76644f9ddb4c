// Days that tell a rule from a wrong one where no other day does. The table stands in specs/Told.antt, the claim over it in proofs/ToldClaim.antt;
// there is nothing to run.
#![tactic(auto)]
