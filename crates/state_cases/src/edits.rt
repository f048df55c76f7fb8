// Edits: each sets one part of a state or a table, to whatever it may be. The first byte of an edit says the
// part, the next ones which of them and to what.
use channels::{Channel1, Channel3, Message, Request};
use numbers::{GateNo, TaskNo};
use state::{Deal, Gate, Mode, State, Task};
use table::Table;

// The bytes of an edit.
pub const SIZE: usize = 16;

// The part that an edit sets.
#[derive(Clone, Copy, Debug, PartialEq, Eq)]
enum Part {
    State,
    Mode,
    WaitingCount,
    Waiting,
    Up,
    Across,
    Offers,
    Deal,
    Down,
    Logged,
    Counts,
    Task,
    Cell,
    Vectors,
    Mask,
}

impl TryFrom<u8> for Part {
    type Error = u8;

    fn try_from(number: u8) -> Result<Self, u8> {
        match number {
            1 => Ok(Part::State),
            2 => Ok(Part::Mode),
            3 => Ok(Part::WaitingCount),
            4 => Ok(Part::Waiting),
            5 => Ok(Part::Up),
            6 => Ok(Part::Across),
            7 => Ok(Part::Offers),
            8 => Ok(Part::Deal),
            9 => Ok(Part::Down),
            10 => Ok(Part::Logged),
            11 => Ok(Part::Counts),
            12 => Ok(Part::Task),
            13 => Ok(Part::Cell),
            14 => Ok(Part::Vectors),
            15 => Ok(Part::Mask),
            _ => Err(number),
        }
    }
}

// The table and the state with each of the edits. One whose part there is not does nothing.
pub fn edited(mut table: Table, mut state: State, edits: &[[u8; SIZE]]) -> (Table, State) {
    for edit in edits {
        if let Ok(part) = Part::try_from(edit[0]) {
            table = with_table_edit(table, part, *edit);
            state = with_state_edit(state, part, *edit);
        }
    }
    (table, state)
}

fn with_state_edit(mut state: State, part: Part, edit: [u8; SIZE]) -> State {
    let i = usize::from(edit[1]);
    if part == Part::Logged {
        state.logged = usize::from(u16::from_le_bytes([edit[2], edit[3]]));
    } else if i < 16 {
        state.tasks[i] = with_task_edit(state.tasks[i], part, edit);
        state.gates[i] = with_gate_edit(state.gates[i], part, edit);
    }
    state
}

fn with_task_edit(mut task: Task, part: Part, edit: [u8; SIZE]) -> Task {
    let i = usize::from(edit[2]);
    match part {
        Part::State => task.state = edit[2],
        Part::Mode => task.mode = mode_of(edit[2], edit[3], edit[4]),
        Part::WaitingCount => task.count = edit[2],
        Part::Waiting if i < task.waiting.len() => task.waiting[i] = request_of(edit[3], edit[4]),
        Part::Up if i < task.up.len() => task.up[i] = three_of(edit),
        Part::Across if i < task.across.len() => task.across[i] = one_of(edit),
        _ => {}
    }
    task
}

fn with_gate_edit(mut gate: Gate, part: Part, edit: [u8; SIZE]) -> Gate {
    let i = usize::from(edit[2]);
    match part {
        Part::Offers => gate.offers = u16::from_le_bytes([edit[2], edit[3]]),
        Part::Deal => gate.deal = deal_of(edit[2], edit[3]),
        Part::Down if i < gate.down.len() => gate.down[i] = one_of(edit),
        _ => {}
    }
    gate
}

fn with_table_edit(mut table: Table, part: Part, edit: [u8; SIZE]) -> Table {
    let i = usize::from(edit[1]);
    let cell = usize::from(u16::from_le_bytes([edit[1], edit[2]]));
    match part {
        Part::Counts => table = table.with_counts(edit[1], edit[2]),
        Part::Task => table = table.with_states(TaskNo(edit[1]), edit[2], edit[3]),
        Part::Cell if cell < table.moves.len() => table.moves[cell] = edit[3],
        Part::Vectors if i < table.vectors.len() => table.vectors[i] = edit[2],
        Part::Mask if i < table.masks.len() => {
            table.masks[i] = u16::from_le_bytes([edit[2], edit[3]]);
        }
        _ => {}
    }
    table
}

fn request_of(gate: u8, vector: u8) -> Request {
    Request {
        gate: GateNo(gate),
        vector,
    }
}

fn one_of(edit: [u8; SIZE]) -> Channel1 {
    Channel1 {
        count: edit[3],
        first: message_of(edit[4], edit[5], edit[6]),
    }
}

fn three_of(edit: [u8; SIZE]) -> Channel3 {
    Channel3 {
        count: edit[3],
        first: message_of(edit[4], edit[5], edit[6]),
        second: message_of(edit[7], edit[8], edit[9]),
        third: message_of(edit[10], edit[11], edit[12]),
    }
}

// A kind is matched here and nowhere else, so it has no enum of its own.
fn message_of(kind: u8, gate: u8, vector: u8) -> Message {
    match kind {
        0 => Message::Ready,
        1 => Message::Lock(request_of(gate, vector)),
        2 => Message::Commit(GateNo(gate)),
        _ => Message::Abort(GateNo(gate)),
    }
}

fn mode_of(kind: u8, gate: u8, vector: u8) -> Mode {
    match kind {
        0 => Mode::Free,
        _ => Mode::Held(request_of(gate, vector)),
    }
}

fn deal_of(kind: u8, vector: u8) -> Deal {
    match kind {
        0 => Deal::Idle,
        _ => Deal::Dealing(vector),
    }
}
