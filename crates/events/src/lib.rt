// What every event answers and leaves, in specs/, and the claims over every run, in proofs/. There is no code: the crates of
// the events' code stand above this one and cite it.
#![tactic(auto)]
