// What a record of a table file says.
#![tactic(auto)]

ghost use Rattle.std.specs.Prelude.{◌≡◌};
ghost use Rattle.records.specs.Records.{record_at};

use numbers::{GateNo, TaskNo};

#[derive(Clone, Copy, Debug, PartialEq, Eq)]
pub enum Record {
    // tasks, gates
    System(u8, u8),
    // number, states, start state
    Task(TaskNo, u8, u8),
    // task, from, gate, to
    Transition(TaskNo, u8, GateNo, u8),
    // gate, tasks
    Vector(GateNo, u16),
}

// The record at a place of a file, by the kind that its head states: 1 to 3, or else a vector.
#[tactic(auto, unfolding(crate::specs::Records::record_at))]
pub fn record_at(file: &[u8], at: usize) -> Record
    ensures { result ≡ record_at file.now at }
{
    if at < file.len() {
        let a = reads::at(file, at + 4, 0);
        let b = reads::at(file, at + 5, 0);
        let c = reads::at(file, at + 6, 0);
        return match format::kind_at(file, at) {
            1 => Record::System(a, b),
            2 => Record::Task(TaskNo(a), b, c),
            3 => Record::Transition(TaskNo(a), b, GateNo(c), reads::at(file, at + 7, 0)),
            _ => Record::Vector(GateNo(a), format::word_at(file, at + 5)),
        };
    }
    Record::Vector(GateNo(0), 0)
}
