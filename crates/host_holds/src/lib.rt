// What the host's open, copy and drop leave of the holds: the type of the definitions.
#![tactic(auto)]

use answer::Answer;
use holds::Holds;

#[derive(Clone, Copy)]
pub struct HoldsLeft {
    pub answer: Answer,
    pub holds: Holds,
}
