// An ended caller's slots: definitions alone.
#![tactic(auto)]
