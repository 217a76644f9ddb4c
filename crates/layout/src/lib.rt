// Every message that the core sends, as bytes: definitions in specs/, laws in proofs/. There is nothing to run; short_replies and
// long_replies make them.
#![tactic(auto)]
