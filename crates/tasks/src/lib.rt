// What a message does at a task.
#![tactic(auto)]

ghost use Rattle.std.specs.Prelude.{◌&&◌, not, ◌≡◌, ◌+◌, ◌<◌};
ghost use Rattle.channels.specs.Channels.{ends_ready};
ghost use Rattle.table.specs.Tables.{ready_of};
ghost use Rattle.tasks.specs.Parts.{announced_up, waits, handled_by};
ghost use Rattle.tasks.specs.Tasks.{with, begun, excluded, sent_up, sent_across, entered, is_free, held_by, sent_below, sent, moved_to, accepted, handled, list_handled, locked, committed, aborted, at_task};

use channels::{Channel, Channel3, Message, Request};
use numbers::{GateNo, TaskNo};
use state::{Mode, Task};
use table::{Rules, Table};

// The work of one delivery on its receiver: the task so far, whether all of it is allowed, and the
// log entries of it, of which the first `fired` are in use. A flag and no `Option`: work on a full channel
// goes on, and 12 is judged over all of it. An array and no `Vec`: memory is fixed.
#[derive(Clone, Copy, Debug, PartialEq, Eq)]
pub struct Work {
    pub task: Task,
    pub ok: bool,
    pub fired: u8,
    pub entries: [Request; Task::WAITING],
}

impl Work {
    fn begun(task: Task) -> Self
        ensures { result ≡ begun task }
    {
        Work {
            task,
            ok: true,
            fired: 0,
            entries: [channels::no_request(); Task::WAITING],
        }
    }

    fn excluded(task: Task) -> Self
        ensures { result ≡ excluded task }
    {
        Work {
            ok: false,
            ..Work::begun(task)
        }
    }

    fn with(self, task: Task, ok: bool) -> Self
        ensures { result ≡ with self task ok }
    {
        Work { task, ok, ..self }
    }

    fn to_gate(self, gate: GateNo, message: Message) -> Self
        ensures { result ≡ sent_up self gate.0 message }
    {
        let put = self.task.put_up(gate, message);
        self.with(put.after, self.ok & put.room)
    }

    fn to_task(self, task: TaskNo, message: Message) -> Self
        ensures { result ≡ sent_across self task.0 message }
    {
        let put = self.task.put_across(task, message);
        self.with(put.after, self.ok & put.room)
    }

    // The entry after those before it. A `Work` of any count can be made by hand, so no fact of the type
    // bounds it: each caller knows its own.
    fn entered(mut self, request: Request) -> Self
        requires { self.fired < 255 }
        ensures { result ≡ entered self request }
    {
        let i = usize::from(self.fired);
        self.fired += 1;
        if i < Task::WAITING {
            self.entries[i] = request;
        }
        self
    }
}

// What a task has sent to the gates, and whether all of the work is allowed so far, a flag as in `Work`.
#[derive(Clone, Copy, Debug, PartialEq, Eq)]
pub struct Outgoing {
    pub up: [Channel3; Table::GATES],
    pub ok: bool,
}

// Where a task works: its own number, and the rules of its line.
#[derive(Clone, Copy)]
pub struct Seat<'a> {
    pub rules: Rules<'a>,
    pub number: TaskNo,
}

impl Seat<'_> {
    // What the oldest message of a channel does at the task.
    #[tactic(auto, unfolding(crate::specs::Tasks::at_task))]
    pub fn at_task(self, task: Task, message: Message) -> Work
        ensures { result ≡ at_task self.entry.rules.moves.now self.entry.rules.gates self.entry.number.0 self.entry.rules.masks.now task message }
    {
        match message {
            Message::Ready => Work::excluded(task),
            Message::Lock(request) => self.locked(task, request, task.mode),
            Message::Commit(gate) => self.committed(task, gate),
            Message::Abort(gate) => self.aborted(task, gate),
        }
    }

    fn locked(self, task: Task, request: Request, mode: Mode) -> Work
        ensures { result ≡ locked self.entry.rules.moves.now self.entry.rules.gates self.entry.number.0 self.entry.rules.masks.now task request mode }
    {
        match mode {
            Mode::Free => self.handled(request, Work::begun(task)),
            Mode::Held(_) => waits(task, request),
        }
    }

    fn committed(self, task: Task, gate: GateNo) -> Work
        ensures { result ≡ committed self.entry.rules.moves.now self.entry.rules.gates self.entry.number.0 self.entry.rules.masks.now task gate.0 }
    {
        let held = is_held_by(task.mode, gate);
        if held & self.rules.ready_at(self.number, task.state, gate) {
            let to = self.rules.move_at(self.number, task.state, gate);
            return self.list_handled(task.count, self.moved_to(to, Work::begun(task)));
        }
        Work::excluded(task)
    }

    fn aborted(self, task: Task, gate: GateNo) -> Work
        ensures { result ≡ aborted self.entry.rules.moves.now self.entry.rules.gates self.entry.number.0 self.entry.rules.masks.now task gate.0 }
    {
        if is_held_by(task.mode, gate) {
            let free = Work::begun(task.with_mode(Mode::Free));
            return self.list_handled(task.count, free);
        }
        Work::excluded(task)
    }

    // The waiting list handled from the front, for as long as the task is Free: so many requests of it.
    fn list_handled(self, count: u8, w: Work) -> Work
        requires { w.fired ≡ 0 }
        ensures { result ≡ list_handled self.entry.rules.moves.now self.entry.rules.gates self.entry.number.0 self.entry.rules.masks.now count w }
    {
        let mut w = w;
        for _ in 0..count {
            if !is_free(w.task.mode) {
                return w;
            }
            let request = w.task.waiting[0];
            w = self.handled(request, w.with(w.task.without_front(), w.ok));
        }
        w
    }

    // A free task handles a lock request.
    #[tactic(auto, unfolding(crate::specs::Tasks::handled))]
    fn handled(self, request: Request, w: Work) -> Work
        requires { w.fired < 255 }
        ensures { result ≡ handled self.entry.rules.moves.now self.entry.rules.gates self.entry.number.0 self.entry.rules.masks.now request w }
    {
        self.handled_by(request, self.rules.mask_at(request.gate, request.vector), w)
    }

    // The same, by the mask of the vector that the request names.
    fn handled_by(self, request: Request, mask: u16, w: Work) -> Work
        requires { w.fired < 255 }
        ensures { result ≡ handled_by self.entry.rules.moves.now self.entry.rules.gates self.entry.number.0 request mask w }
    {
        let gate = request.gate;
        if self.rules.ready_at(self.number, w.task.state, gate) {
            return self.accepted(request, mask, sets::next_above(mask, self.number), w);
        }
        self.sent(mask, gate, Message::Abort(gate), w)
    }

    // A ready task holds and passes the lock on, or as the highest fires.
    fn accepted(self, request: Request, mask: u16, above: Option<TaskNo>, w: Work) -> Work
        requires { w.fired < 255 }
        ensures { result ≡ accepted self.entry.rules.moves.now self.entry.rules.gates self.entry.number.0 request mask above w }
    {
        let gate = request.gate;
        match above {
            Some(next) => {
                let held = w.task.with_mode(Mode::Held(request));
                w.with(held, w.ok).to_task(next, Message::Lock(request))
            }
            None => {
                let to = self.rules.move_at(self.number, w.task.state, gate);
                let decided = self.sent(mask, gate, Message::Commit(gate), w.entered(request));
                self.moved_to(to, decided)
            }
        }
    }

    // The task moves along a transition, is Free and announces itself.
    #[tactic(auto, using(crate::proofs::Apart::announced_apart))]
    fn moved_to(self, to: Option<u8>, w: Work) -> Work
        ensures { result ≡ moved_to self.entry.rules.moves.now self.entry.rules.gates self.entry.number.0 to w }
    {
        match to {
            None => w,
            Some(state) => {
                let up = w.task.up;
                let after = self.announced(state, Outgoing { up, ok: w.ok });
                let up = after.up;
                let free = w.task.at_state(state).with_mode(Mode::Free);
                w.with(free.with_all_up(up), after.ok)
            }
        }
    }

    // READY to each gate that the task in this state is ready at, ascending. Only what this changes goes in
    // and comes out: the rest of the work is not copied.
    #[tactic(auto, using(laws::proofs::Turning::turn_more, table::proofs::Cells::not_ready), unfolding(crate::specs::Parts::announced_up))]
    pub fn announced(self, state: u8, before: Outgoing) -> Outgoing
        ensures { result ≡ announced_up self.entry.rules.moves.now self.entry.rules.gates self.entry.number.0 state before }
    {
        let mut up = before.up;
        let mut ok = before.ok;
        for g in 0..self.rules.gates {
            let i = usize::from(g);
            if i < Table::GATES {
                let channel = up[i];
                if self.is_due(state, GateNo(g), channel) {
                    ok &= channel.has_room();
                    up[i] = channel.put(Message::Ready);
                }
            }
        }
        Outgoing { up, ok }
    }

    // Whether a READY is due: the task is ready at the gate, and the newest message there is none.
    fn is_due(self, state: u8, gate: GateNo, channel: Channel3) -> bool
        ensures { result ≡ (ready_of self.entry.rules.moves.now self.entry.number.0 state gate.0 && not (ends_ready channel)) }
    {
        self.rules.ready_at(self.number, state, gate) && !channel.ends_ready()
    }

    // A message to each lower task of a vector, ascending, then to the gate.
    fn sent(self, mask: u16, gate: GateNo, message: Message, w: Work) -> Work
        ensures { result ≡ sent self.entry.number.0 mask gate.0 message w }
    {
        sent_below(self.number, mask, message, w).to_gate(gate, message)
    }
}

#[tactic(auto, using(laws::proofs::Turning::turn_more, sets::proofs::Members::no_member), unfolding(crate::specs::Tasks::sent_below))]
fn sent_below(number: TaskNo, mask: u16, message: Message, w: Work) -> Work
    ensures { result ≡ sent_below number.0 mask message w }
{
    let task = w.task;
    let mut across = task.across;
    let mut ok = w.ok;
    for y in 0..number.0 {
        let i = y as usize;
        if i < Table::TASKS {
            let channel = across[i];
            if sets::member(mask, TaskNo(y)) {
                ok &= channel.has_room();
                across[i] = channel.put(message);
            }
        }
    }
    w.with(task.with_all_across(across), ok)
}

fn is_free(mode: Mode) -> bool
    ensures { result ≡ is_free mode }
{
    matches!(mode, Mode::Free)
}

fn is_held_by(mode: Mode, gate: GateNo) -> bool
    ensures { result ≡ held_by gate.0 mode }
{
    matches!(mode, Mode::Held(request) if request.gate == gate)
}

// A held task lets a request wait, where there is room.
fn waits(task: Task, request: Request) -> Work
    ensures { result ≡ waits task request }
{
    if usize::from(task.count) < Task::WAITING {
        return Work::begun(task.with_last(request));
    }
    Work::excluded(task)
}
