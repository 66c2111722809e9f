// A history is a matter of specs/ and proofs/: calls one after another on the same words.
#![tactic(auto)]
