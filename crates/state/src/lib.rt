// The state of the line: tasks, gates and the count of log entries. A channel lies with its sender:
// each party owns what it has sent, and a delivery moves two parties.
#![tactic(auto)]

ghost use Rattle.std.specs.Prelude.{◌≡◌, ltb, get_or, set};
ghost use Rattle.channels.specs.Channels.{front_of};
ghost use Rattle.state.specs.States.{empty_task, empty_gate, empty_state, at_state, with_mode, with_all_up, with_all_across, with_last, without_front};
ghost use Rattle.state.specs.States.{pop_up, put_up, pop_across, put_across, pop_down, put_down, pop_of};
ghost use Rattle.state.specs.Parts.{put_of};

use channels::{Channel, Channel1, Channel3, Message, Request};
use numbers::{GateNo, TaskNo};
use table::Table;

// The paper names this mode and its cases, and a gate's too (`Deal`); so neither is an `Option`.
#[derive(Clone, Copy, Debug, PartialEq, Eq)]
pub enum Mode {
    Free,
    Held(Request),
}

// The first `count` of `waiting` are the lock requests that wait, the front first. What the task has
// sent lies in `up` for each gate and in `across` for each task. Arrays and no `Vec`: memory is fixed,
// and what is unused holds the paper's filler.
#[derive(Clone, Copy, Debug, PartialEq, Eq)]
pub struct Task {
    pub state: u8,
    pub mode: Mode,
    pub count: u8,
    pub waiting: [Request; Task::WAITING],
    pub up: [Channel3; Table::GATES],
    pub across: [Channel1; Table::TASKS],
}

#[derive(Clone, Copy, Debug, PartialEq, Eq)]
pub enum Deal {
    Idle,
    Dealing(u8),
}

// What the gate has sent lies in `down` for each task.
#[derive(Clone, Copy, Debug, PartialEq, Eq)]
pub struct Gate {
    pub offers: u16,
    pub deal: Deal,
    pub down: [Channel1; Table::TASKS],
}

// `logged` counts the entries of a log that lies with the caller.
#[derive(Clone, Copy, Debug, PartialEq, Eq)]
pub struct State {
    pub tasks: [Task; Table::TASKS],
    pub gates: [Gate; Table::GATES],
    pub logged: usize,
}

// An ordered pair that has a channel.
#[derive(Clone, Copy, Debug, PartialEq, Eq)]
pub enum Link {
    ToGate(TaskNo, GateNo),
    FromGate(GateNo, TaskNo),
    ToTask(TaskNo, TaskNo),
}

// What a pop and a put leave of a task, a gate or the state. The value after a put counts whether there
// was room or not, since a full channel stays as it is.
#[derive(Clone, Copy, Debug, PartialEq, Eq)]
pub struct Popped<T> {
    pub after: T,
    pub front: Option<Message>,
}

#[derive(Clone, Copy, Debug, PartialEq, Eq)]
pub struct Put<T> {
    pub after: T,
    pub room: bool,
}

// The oldest message of a channel of a list, which leaves it. A number outside the list finds no
// channel.
fn pop_at<C: Channel>(list: &mut [C], i: u8) -> Option<Message>
    ensures front { result ≡ front_of (C.count (get_or list.old i C.empty)) (C.first (get_or list.old i C.empty)) }
    ensures after { list.new ≡ set list.old i (C.popped (get_or list.old i C.empty)) }
{
    let i = i as usize;
    let channel = *list.get(i)?;
    list[i] = channel.popped();
    channel.front()
}

// Whether a channel of a list has room; the message then comes last in it. A number outside the list
// finds no channel, and room.
fn put_at<C: Channel>(list: &mut [C], i: u8, message: Message) -> bool
    ensures room { result ≡ ltb (C.count (get_or list.old i C.empty)) C.ROOM }
    ensures after { list.new ≡ set list.old i (C.put (get_or list.old i C.empty) message) }
{
    let i = i as usize;
    let Some(&channel) = list.get(i) else {
        return true;
    };
    list[i] = channel.put(message);
    channel.has_room()
}

impl Task {
    // A waiting list has room for so many requests.
    pub const WAITING: usize = 16;

    pub fn empty() -> Self
        ensures { result ≡ empty_task }
    {
        let none = channels::no_request();
        let none3 = Channel3::empty();
        let none1 = Channel1::empty();
        Task {
            state: 0,
            mode: Mode::Free,
            count: 0,
            waiting: [none; Task::WAITING],
            up: [none3; Table::GATES],
            across: [none1; Table::TASKS],
        }
    }

    pub fn at_state(self, state: u8) -> Self
        ensures { result ≡ at_state self state }
    {
        Task { state, ..self }
    }

    pub fn with_mode(self, mode: Mode) -> Self
        ensures { result ≡ with_mode self mode }
    {
        Task { mode, ..self }
    }

    pub fn with_all_up(self, up: [Channel3; Table::GATES]) -> Self
        ensures { result ≡ with_all_up self up }
    {
        Task { up, ..self }
    }

    pub fn with_all_across(self, across: [Channel1; Table::TASKS]) -> Self
        ensures { result ≡ with_all_across self across }
    {
        Task { across, ..self }
    }

    // With a request put last on the waiting list; a full list stays as it is.
    pub fn with_last(mut self, request: Request) -> Self
        ensures { result ≡ with_last self request }
    {
        let n = self.count as usize;
        if n < Task::WAITING {
            self.waiting[n] = request;
            self.count += 1;
        }
        self
    }

    // Without the front of the waiting list; the filler comes last.
    #[tactic(auto, using(laws::proofs::Shifts::last_replaced))]
    pub fn without_front(mut self) -> Self
        ensures { result ≡ without_front self }
    {
        self.waiting.rotate_left(1);
        self.waiting[Task::WAITING - 1] = channels::no_request();
        self.count = self.count.saturating_sub(1);
        self
    }
}

impl Gate {
    pub fn empty() -> Self
        ensures { result ≡ empty_gate }
    {
        let none = Channel1::empty();
        Gate {
            offers: 0,
            deal: Deal::Idle,
            down: [none; Table::TASKS],
        }
    }
}

impl State {
    pub fn empty() -> Self
        ensures { result ≡ empty_state }
    {
        let task = Task::empty();
        let gate = Gate::empty();
        State {
            tasks: [task; Table::TASKS],
            gates: [gate; Table::GATES],
            logged: 0,
        }
    }
}

// What a party has sent. A pop takes the oldest message, and the filler comes back in its place; a
// put finds room or leaves a full channel as it is. A number outside 16 finds no channel.
// A task is made anew with its list changed: the arrays that stay are then copied once, however many
// such changes follow each other.
impl Task {
    pub fn pop_up(self, gate: GateNo) -> Popped<Task>
        ensures { result ≡ pop_up self gate.0 }
    {
        let mut up = self.up;
        let front = pop_at(&mut up, gate.0);
        let after = self.with_all_up(up);
        Popped { after, front }
    }

    pub fn put_up(self, gate: GateNo, message: Message) -> Put<Task>
        ensures { result ≡ put_up self gate.0 message }
    {
        let mut up = self.up;
        let room = put_at(&mut up, gate.0, message);
        let after = self.with_all_up(up);
        Put { after, room }
    }

    pub fn pop_across(self, to: TaskNo) -> Popped<Task>
        ensures { result ≡ pop_across self to.0 }
    {
        let mut across = self.across;
        let front = pop_at(&mut across, to.0);
        let after = self.with_all_across(across);
        Popped { after, front }
    }

    pub fn put_across(self, to: TaskNo, message: Message) -> Put<Task>
        ensures { result ≡ put_across self to.0 message }
    {
        let mut across = self.across;
        let room = put_at(&mut across, to.0, message);
        let after = self.with_all_across(across);
        Put { after, room }
    }
}

impl Gate {
    pub fn pop_down(mut self, task: TaskNo) -> Popped<Gate>
        ensures { result ≡ pop_down self task.0 }
    {
        let front = pop_at(&mut self.down, task.0);
        Popped { after: self, front }
    }

    pub fn put_down(mut self, task: TaskNo, message: Message) -> Put<Gate>
        ensures { result ≡ put_down self task.0 message }
    {
        let room = put_at(&mut self.down, task.0, message);
        Put { after: self, room }
    }
}

// Each arm goes by a method of its own party, which lies in a list of its own: so there are three.
impl State {
    // The oldest message of a channel, and the state without it.
    pub fn pop(mut self, link: Link) -> Popped<State>
        ensures { result ≡ pop_of self link }
    {
        let front = match link {
            Link::ToGate(t, g) if (t.0 as usize) < Table::TASKS => {
                let popped = self.tasks[t.0 as usize].pop_up(g);
                self.tasks[t.0 as usize] = popped.after;
                popped.front
            }
            Link::FromGate(g, t) if (g.0 as usize) < Table::GATES => {
                let popped = self.gates[g.0 as usize].pop_down(t);
                self.gates[g.0 as usize] = popped.after;
                popped.front
            }
            Link::ToTask(t, b) if (t.0 as usize) < Table::TASKS => {
                let popped = self.tasks[t.0 as usize].pop_across(b);
                self.tasks[t.0 as usize] = popped.after;
                popped.front
            }
            _ => None,
        };
        Popped { after: self, front }
    }

    // A message put last in a channel; a full channel stays as it is, and room is false.
    pub fn put(mut self, link: Link, message: Message) -> Put<State>
        ensures { result ≡ put_of self link message }
    {
        let room = match link {
            Link::ToGate(t, g) if (t.0 as usize) < Table::TASKS => {
                let put = self.tasks[t.0 as usize].put_up(g, message);
                self.tasks[t.0 as usize] = put.after;
                put.room
            }
            Link::FromGate(g, t) if (g.0 as usize) < Table::GATES => {
                let put = self.gates[g.0 as usize].put_down(t, message);
                self.gates[g.0 as usize] = put.after;
                put.room
            }
            Link::ToTask(t, b) if (t.0 as usize) < Table::TASKS => {
                let put = self.tasks[t.0 as usize].put_across(b, message);
                self.tasks[t.0 as usize] = put.after;
                put.room
            }
            _ => true,
        };
        Put { after: self, room }
    }
}
