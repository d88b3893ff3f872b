// What the host's put leaves: the type of the definition.
#![tactic(auto)]

use answer::Answer;
use handles::Handles;
use holds::Holds;

#[derive(Clone, Copy)]
pub struct HoldPut {
    pub answer: Answer,
    pub handles: Handles,
    pub holds: Holds,
}
