// The step on words, and both layouts over every run: definitions in specs/, proofs in proofs/. There is no code.
#![tactic(auto)]
