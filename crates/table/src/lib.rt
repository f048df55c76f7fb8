// The table of tasks, gates and synchronization vectors.
#![tactic(auto)]

ghost use Rattle.std.specs.Prelude.{◌≡◌, get_or};
ghost use Rattle.table.specs.Tables.{empty_table, with_counts, with_states, with_move, with_vector, count_in, is_cell, cell_of, move_of, ready_of, mask_of, new_below};

use numbers::{GateNo, TaskNo};

// Unused room is 0 throughout. Of the transitions, `moves` has a cell for each task, state and gate:
// 0 where there is none, else one more than the state that it leads to, in one byte. Of the vectors, `masks` has
// eight places a gate, of which the first `vectors` are in use. A list for each part and not one of
// structs: the deliveries are lent lists of numbers.
#[derive(Clone, Copy, Debug, PartialEq, Eq)]
pub struct Table {
    pub tasks: u8,
    pub gates: u8,
    pub states: [u8; Table::TASKS],
    pub starts: [u8; Table::TASKS],
    pub moves: [u8; Table::TASKS * Table::STATES * Table::GATES],
    pub vectors: [u8; Table::GATES],
    pub masks: [u16; Table::GATES * Table::VECTORS],
}

impl Table {
    pub const TASKS: usize = 16;

    pub const GATES: usize = 16;

    pub const STATES: usize = 16;

    pub const VECTORS: usize = 8;

    pub fn empty() -> Self
        ensures { result ≡ empty_table }
    {
        Table {
            tasks: 0,
            gates: 0,
            states: [0; Table::TASKS],
            starts: [0; Table::TASKS],
            moves: [0; Table::TASKS * Table::STATES * Table::GATES],
            vectors: [0; Table::GATES],
            masks: [0; Table::GATES * Table::VECTORS],
        }
    }

    pub fn rules(&self) -> Rules<'_>
        ensures tasks { result.tasks ≡ self.now.tasks }
        ensures gates { result.gates ≡ self.now.gates }
        ensures states { result.states.now ≡ self.now.states }
        ensures moves { result.moves.now ≡ self.now.moves }
        ensures vectors { result.vectors.now ≡ self.now.vectors }
        ensures masks { result.masks.now ≡ self.now.masks }
    {
        Rules {
            tasks: self.tasks,
            gates: self.gates,
            states: &self.states,
            moves: &self.moves,
            vectors: &self.vectors,
            masks: &self.masks,
        }
    }

    pub fn with_counts(mut self, tasks: u8, gates: u8) -> Self
        ensures { result ≡ with_counts self tasks gates }
    {
        self.tasks = tasks;
        self.gates = gates;
        self
    }

    pub fn with_states(mut self, task: TaskNo, states: u8, start: u8) -> Self
        ensures { result ≡ with_states self task.0 states start }
    {
        let t = task.0 as usize;
        if t < Table::TASKS {
            self.states[t] = states;
            self.starts[t] = start;
        }
        self
    }

    // A state has room for 16, so a move from or to any other number is none.
    pub fn with_move(mut self, task: TaskNo, from: u8, gate: GateNo, to: u8) -> Self
        ensures { result ≡ with_move self task.0 from gate.0 to }
    {
        if is_cell(task, from, gate) & (to < 16) {
            let cell = cell(task, from, gate);
            self.moves[cell] = to + 1;
        }
        self
    }

    // A gate that has eight vectors takes no ninth.
    pub fn with_vector(mut self, gate: GateNo, mask: u16) -> Self
        ensures { result ≡ with_vector self gate.0 mask }
    {
        let g = gate.0 as usize;
        if g < Table::GATES {
            let n = self.vectors[g];
            if n < 8 {
                self.vectors[g] = n + 1;
                let place = g * Table::VECTORS + n as usize;
                self.masks[place] = mask;
            }
        }
        self
    }
}

// What the deliveries read of a table: its lists, lent, and its counts.
#[derive(Clone, Copy)]
pub struct Rules<'a> {
    pub tasks: u8,
    pub gates: u8,
    pub states: &'a [u8],
    pub moves: &'a [u8],
    pub vectors: &'a [u8],
    pub masks: &'a [u16],
}

impl<'a> Rules<'a> {
    // Whether a task in a state is ready at a gate, and where it goes: one read of the moves.
    pub fn move_at(self, task: TaskNo, state: u8, gate: GateNo) -> Option<u8>
        ensures { result ≡ move_of self.entry.moves.now task.0 state gate.0 }
    {
        if is_cell(task, state, gate) {
            let to = reads::at(self.moves, cell(task, state, gate), 0);
            return to.checked_sub(1);
        }
        None
    }

    // Whether a task in a state is ready at a gate.
    pub fn ready_at(self, task: TaskNo, state: u8, gate: GateNo) -> bool
        ensures { result ≡ ready_of self.entry.moves.now task.0 state gate.0 }
    {
        self.move_at(task, state, gate).is_some()
    }

    // The tasks of a gate's vector; none where there is no such vector.
    pub fn mask_at(self, gate: GateNo, vector: u8) -> u16
        ensures { result ≡ mask_of self.entry.masks.now gate.0 vector }
    {
        mask_at(self.masks, gate, vector)
    }

    // How many vectors a gate has.
    pub fn vectors_at(self, gate: GateNo) -> u8
        ensures { result ≡ get_or self.entry.vectors.now gate.0 0 }
    {
        reads::at(self.vectors, gate.0.into(), 0)
    }

    pub fn at_gate(self, gate: GateNo) -> Vectors<'a>
        ensures masks { result.masks.now ≡ self.entry.masks.now }
        ensures count { result.count ≡ get_or self.entry.vectors.now gate.0 0 }
        ensures gate { result.gate ≡ gate }
    {
        Vectors {
            masks: self.masks,
            count: self.vectors_at(gate),
            gate,
        }
    }
}

// A gate's vectors: of the table's masks the gate's first ones, so many.
#[derive(Clone, Copy)]
pub struct Vectors<'a> {
    pub masks: &'a [u16],
    pub count: u8,
    pub gate: GateNo,
}

impl Vectors<'_> {
    // The tasks of a vector; none where there is no such vector.
    pub fn mask(self, vector: u8) -> u16
        ensures { result ≡ mask_of self.entry.masks.now self.entry.gate.0 vector }
    {
        mask_at(self.masks, self.gate, vector)
    }
}

// The tasks of a gate's vector; none where there is no such vector. Of the masks alone, and so `new_below`:
// they are also asked of a table that nobody has judged yet.
pub fn mask_at(masks: &[u16], gate: GateNo, vector: u8) -> u16
    ensures { result ≡ mask_of masks.now gate.0 vector }
{
    if vector < 8 {
        reads::at(
            masks,
            usize::from(gate.0) * Table::VECTORS + usize::from(vector),
            0,
        )
    } else {
        0
    }
}

// Whether a mask is none of a gate's first vectors.
pub fn new_below(masks: &[u16], gate: GateNo, count: u8, mask: u16) -> bool
    ensures { result ≡ new_below masks.now gate.0 count mask }
{
    for v in 0..count {
        if mask_at(masks, gate, v) == mask {
            return false;
        }
    }
    true
}

// A count of tasks, gates or states is 1 to 16.
pub fn count_in(count: u8) -> bool
    ensures { result ≡ count_in count }
{
    (1..=16).contains(&count)
}

fn is_cell(task: TaskNo, state: u8, gate: GateNo) -> bool
    ensures { result ≡ is_cell task.0 state gate.0 }
{
    (task.0 < 16) & ((state < 16) & (gate.0 < 16))
}

// The place of a task, state and gate among the moves.
pub fn cell(task: TaskNo, state: u8, gate: GateNo) -> usize
    ensures { result ≡ cell_of task.0 state gate.0 }
{
    (task.0 as usize * Table::STATES + state as usize) * Table::GATES + gate.0 as usize
}
