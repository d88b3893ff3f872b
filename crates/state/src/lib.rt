// The state of the layer: a driver's own part, and the table that drivers would share. The words of the driver's queue are
// lent beside it (crate wait_queue) and belong to the state all the same.
#![tactic(auto)]

ghost use Rattle.std.specs.Prelude.{◌≡◌};
ghost use Rattle.state.specs.State.{fresh_state};

use handles::Handles;
use table::Table;
use wait_queue::WaitQueue;

// The scheme number, the handles and the queue.
#[repr(C)]
#[derive(Clone, Copy)]
pub struct Driver {
    pub scheme: u64,
    pub handles: Handles,
    pub queue: WaitQueue,
}

#[repr(C)]
#[derive(Clone, Copy)]
pub struct State {
    pub driver: Driver,
    pub table: Table,
}

// Every slot vacant, queue and handles empty, no description open.
pub fn fresh(scheme: u64) -> State
    ensures { result ≡ fresh_state scheme }
{
    let table = table::fresh();
    State {
        driver: Driver {
            scheme: scheme,
            handles: Handles { at: [0; 64] },
            queue: WaitQueue { first: 0, len: 0 },
        },
        table: table,
    }
}
