// Datagrams: the verdict, in an order of their own, and what each gets. Definitions in specs/, laws in proofs/. There is nothing to run;
// datagram_verdict and datagram_answer find them.
#![tactic(auto)]
