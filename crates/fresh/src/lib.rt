// The state that a line starts with.
#![tactic(auto)]

ghost use Rattle.std.specs.Prelude.{◌≡◌};
ghost use Rattle.fresh.specs.Fresh.{fresh};
ghost use Rattle.fresh.specs.Parts.{started};

use answers::{Answer, Refusal};
use numbers::TaskNo;
use state::{State, Task};
use table::Table;
use tasks::{Outgoing, Seat};

// No `Result`, since the paper gives the empty state with a refusal.
#[derive(Clone, Copy, Debug, PartialEq, Eq)]
pub struct Started {
    pub state: State,
    pub answer: Answer,
}

// All tasks at their start states, with the READYs that they have sent; the empty state where the
// table is unsound.
#[tactic(auto, using(laws::proofs::Turning::turn_more), unfolding(crate::specs::Fresh::fresh_state, crate::specs::Fresh::fresh))]
pub fn fresh(table: Table) -> Started
    ensures { result ≡ fresh table }
{
    let mut state = State::empty();
    if !soundness::sound(table) {
        return Started {
            state,
            answer: Err(Refusal::Unsound),
        };
    }
    for t in 0..table.tasks {
        let i = usize::from(t);
        let seat = Seat {
            rules: table.rules(),
            number: TaskNo(t),
        };
        let p = state.tasks[i];
        let task = started_task(seat, table.starts[i], p);
        state.tasks[i] = task;
    }
    Started {
        state,
        answer: Ok(()),
    }
}

// A task at its start state announces itself; what it shares with one that moves is that.
fn started_task(seat: Seat<'_>, start: u8, task: Task) -> Task
    ensures { result ≡ started seat.entry.rules.moves.now seat.entry.rules.gates seat.entry.number.0 start task }
{
    let up = task.up;
    let after = seat.announced(start, Outgoing { up, ok: true });
    let up = after.up;
    task.at_state(start).with_all_up(up)
}
