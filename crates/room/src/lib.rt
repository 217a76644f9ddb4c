// Every accepted call's entries have room in the plan and in the output sheet: laws of the rules, in proofs/. There is nothing to run.
#![tactic(auto)]
