// What the answers of the lower layers' functions say of the tests in the events' definitions, in proofs/. There is no code.
#![tactic(auto)]
