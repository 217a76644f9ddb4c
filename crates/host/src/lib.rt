// Laws alone: the promises, of the calls that run.
#![tactic(auto)]
