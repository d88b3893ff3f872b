// 01's marked values, in specs/Marked.antt, and their proof, in proofs/Held.antt. There is no code.
#![tactic(auto)]
