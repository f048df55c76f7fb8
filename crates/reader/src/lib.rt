// Reading a table file: each record is checked in the paper's order, and the first fault ends the reading.
#![tactic(auto)]

ghost use Rattle.std.specs.Prelude.{◌≡◌, Err};
ghost use Rattle.reader.specs.Parts.{none_came, loading_none, with_next};
ghost use Rattle.reader.specs.Rules.{kind_fault, in_range, is_ninth, in_order, field_fault, with_record, after_record};
ghost use Rattle.reader.specs.Reader.{fault_at, refused_of, ended_of, read_of};

use answers::{Answer, Refusal};
use numbers::GateNo;
use records::Record;
use table::Table;

// What comes back: the table and where the reading ended, or the empty table and the refused
// record's place. No `Result`, since the paper says what comes back with a refusal too.
#[derive(Clone, Copy, Debug, PartialEq, Eq)]
pub struct Loaded {
    pub table: Table,
    pub answer: Answer,
    pub place: usize,
}

pub fn read(file: &[u8]) -> Loaded
    ensures { result ≡ read_of file.now }
{
    let mut loading = Loading::begun();
    let mut at = 0;
    // No `for`: where the next record starts is known only when this one is read.
    while at < file.len() {
        if let Err(refusal) = loading.fault_at(file, at) {
            return refused(refusal, at);
        }
        loading = loading.with_next(records::record_at(file, at));
        at += format::size_at(file, at);
    }
    loading.ended(file.len())
}

// The schedule's reader has its like, which fills another struct.
fn refused(refusal: Refusal, place: usize) -> Loaded
    ensures { result ≡ refused_of (Err refusal) place }
{
    Loaded {
        table: Table::empty(),
        answer: Err(refusal),
        place,
    }
}

// What the order of the records asks of those that have come: the last one's kind (0 before the
// first), how many tasks, the lowest cell left for a transition, and the last vector's gate. The
// kind is the file's own number, by which the paper orders records.
#[derive(Clone, Copy, Debug, PartialEq, Eq)]
pub struct Progress {
    pub kind: u16,
    pub came: u16,
    pub floor: usize,
    pub gate: GateNo,
}

impl Progress {
    // Before the first record.
    fn none_came() -> Self
        ensures { result ≡ none_came }
    {
        Progress {
            kind: 0,
            came: 0,
            floor: 0,
            gate: GateNo(0),
        }
    }

    #[tactic(auto, unfolding(crate::specs::Rules::after_record))]
    fn after_record(self, next: Record) -> Self
        ensures { result ≡ after_record self next }
    {
        match next {
            Record::System(_, _) => Progress { kind: 1, ..self },
            Record::Task(task, _, _) => Progress {
                kind: 2,
                came: u16::from(task.0) + 1,
                ..self
            },
            Record::Transition(task, from, gate, _) => Progress {
                kind: 3,
                floor: table::cell(task, from, gate) + 1,
                ..self
            },
            Record::Vector(gate, _) => Progress {
                kind: 4,
                gate,
                ..self
            },
        }
    }
}

// The table so far, and what the order of the records asks.
#[derive(Clone, Copy, Debug, PartialEq, Eq)]
pub struct Loading {
    pub table: Table,
    pub progress: Progress,
}

impl Loading {
    fn begun() -> Self
        ensures { result ≡ loading_none }
    {
        Loading {
            table: Table::empty(),
            progress: Progress::none_came(),
        }
    }

    #[tactic(auto, unfolding(crate::specs::Rules::with_record))]
    fn with_next(self, next: Record) -> Self
        ensures { result ≡ with_next self next }
    {
        let table = self.table;
        let table = match next {
            Record::System(tasks, gates) => table.with_counts(tasks, gates),
            Record::Task(task, states, start) => table.with_states(task, states, start),
            Record::Transition(task, from, gate, to) => table.with_move(task, from, gate, to),
            Record::Vector(gate, mask) => table.with_vector(gate, mask),
        };
        Loading {
            table,
            progress: self.progress.after_record(next),
        }
    }

    // No record is left: the system record and all tasks must have come.
    #[tactic(auto, unfolding(crate::specs::Reader::ended_of))]
    fn ended(self, length: usize) -> Loaded
        ensures { result ≡ ended_of length self }
    {
        if (self.progress.kind == 0) | (self.progress.came < u16::from(self.table.tasks)) {
            return refused(Refusal::Missing, length);
        }
        Loaded {
            table: self.table,
            answer: Ok(()),
            place: length,
        }
    }

    // The first fault of the record at a place.
    #[tactic(auto, unfolding(crate::specs::Reader::fault_at))]
    fn fault_at(&self, file: &[u8], at: usize) -> Answer
        ensures { result ≡ fault_at file.now at self.now }
    {
        let kind = format::kind_at(file, at);
        format::head_fault(file, at, self.kind_fault(kind))?;
        self.field_fault(records::record_at(file, at))
    }

    // Kind 1 to 4 and allowed here, then tasks not yet complete.
    #[tactic(auto, unfolding(crate::specs::Rules::kind_fault))]
    fn kind_fault(&self, kind: u16) -> Answer
        ensures { result ≡ kind_fault self.now.table.tasks self.now.progress kind }
    {
        let before = self.progress.kind;
        let first = (before == 0) & (kind == 1);
        let later = (before != 0) & ((kind != 1) & (before <= kind));
        if !((1..=4).contains(&kind) & (first | later)) {
            return Err(Refusal::Kind);
        }
        if (2 < kind) & (self.progress.came < u16::from(self.table.tasks)) {
            return Err(Refusal::Missing);
        }
        Ok(())
    }

    // The record's fields: their ranges, a ninth vector, the order or a repeated mask.
    #[tactic(auto, unfolding(crate::specs::Rules::field_fault))]
    fn field_fault(&self, next: Record) -> Answer
        ensures { result ≡ field_fault self.now next }
    {
        if !self.in_range(next) {
            return Err(Refusal::FieldRange);
        }
        if self.is_ninth(next) {
            return Err(Refusal::TooMany);
        }
        if !self.in_order(next) {
            return Err(Refusal::Order);
        }
        Ok(())
    }

    #[tactic(auto, unfolding(crate::specs::Rules::in_range))]
    fn in_range(&self, next: Record) -> bool
        ensures { result ≡ in_range self.now.table next }
    {
        match next {
            Record::System(tasks, gates) => table::count_in(tasks) & table::count_in(gates),
            Record::Task(task, states, start) => {
                (task.0 < self.table.tasks) & (table::count_in(states) & (start < states))
            }
            Record::Transition(task, from, gate, to) => {
                let states = reads::at(&self.table.states, task.0.into(), 0);
                let there = (gate.0 < self.table.gates) & (to < states);
                (task.0 < self.table.tasks) & ((from < states) & there)
            }
            Record::Vector(gate, mask) => {
                let present = sets::all_below(mask, self.table.tasks);
                (gate.0 < self.table.gates) & ((mask != 0) & present)
            }
        }
    }

    #[tactic(auto, unfolding(crate::specs::Rules::is_ninth))]
    fn is_ninth(&self, next: Record) -> bool
        ensures { result ≡ is_ninth self.now.table next }
    {
        match next {
            Record::Vector(gate, _) => 8 <= reads::at(&self.table.vectors, gate.0.into(), 0),
            _ => false,
        }
    }

    #[tactic(auto, unfolding(crate::specs::Rules::in_order))]
    fn in_order(&self, next: Record) -> bool
        ensures { result ≡ in_order self.now next }
    {
        match next {
            Record::System(_, _) => true,
            Record::Task(task, _, _) => u16::from(task.0) == self.progress.came,
            Record::Transition(task, from, gate, _) => {
                self.progress.floor <= table::cell(task, from, gate)
            }
            Record::Vector(gate, mask) => {
                let new = table::new_below(&self.table.masks, gate, 8, mask);
                (self.progress.gate <= gate) & new
            }
        }
    }
}
