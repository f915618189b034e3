// Lemmas on numbers and lists that several crates cite, under proofs/. There is no code here.

#![tactic(auto)]
