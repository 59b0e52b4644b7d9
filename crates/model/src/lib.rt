// The model: definitions (specs/) and laws (proofs/). It holds no code; the contracts of the other crates cite it.
#![tactic(auto)]
