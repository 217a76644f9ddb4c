// Days that document 01 has run and not proved, its slips, and a day for each reading that the demands alone would not tell apart. The
// table stands in specs/Further.antt, the claim over it in proofs/FurtherClaim.antt; there is nothing to run.
#![tactic(auto)]
