// Document 01 as definitions, in specs/; the laws that hold of them, in proofs/. There is nothing to run.
#![tactic(auto)]
