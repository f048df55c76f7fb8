// A delivery: the oldest message of a channel is taken, and its receiver handles it.
#![tactic(auto)]

ghost use Rattle.std.specs.Prelude.{◌≡◌, ◌+◌, ◌/◌, ◌≤◌, ◌<◌, set, length};
ghost use Rattle.delivery.specs.Delivery.{entered_in_log, written, refused_at, settled_at_task, way_of, delivered_at_gate, delivered_at_task, along, given_back, sound_for, delivered};
ghost use Rattle.state.specs.States.{pop_of};
ghost use Rattle.delivery.specs.Within.{LinkWithin};
ghost use Rattle.state.specs.declared.Link.TheVariants.{ToGate};

use answers::{Answer, Refusal};
use channels::Request;
use numbers::{Endpoint, GateNo, TaskNo};
use state::{Link, State, Task};
use table::{Rules, Table};
use tasks::{Seat, Work};

// No `Result`, since the promise says which state comes back with a refusal too.
#[derive(Clone, Copy, Debug, PartialEq, Eq)]
pub struct Delivered {
    pub state: State,
    pub answer: Answer,
}

fn refused(state: State, refusal: Refusal) -> Delivered
    ensures { result ≡ refused_at state refusal }
{
    Delivered {
        state,
        answer: Err(refusal),
    }
}

// The channel between two endpoints, if there is one.
pub fn way_between(from: Option<Endpoint>, to: Option<Endpoint>) -> Option<Link>
    ensures { result ≡ way_of from to }
{
    match (from?, to?) {
        (Endpoint::Task(a), Endpoint::Task(b)) if a == b => None,
        (Endpoint::Task(a), Endpoint::Task(b)) => Some(Link::ToTask(a, b)),
        (Endpoint::Task(t), Endpoint::Gate(g)) => Some(Link::ToGate(t, g)),
        (Endpoint::Gate(g), Endpoint::Task(b)) => Some(Link::FromGate(g, b)),
        (Endpoint::Gate(_), Endpoint::Gate(_)) => None,
    }
}

// A byte of the log; past its end nothing is stored.
fn store(log: &mut [u8], i: usize, byte: u8)
    ensures { log.new ≡ set log.old i byte }
{
    if i < log.len() {
        log[i] = byte;
    }
}

// Entry k of those behind the first `at`, two bytes.
fn enter(log: &mut [u8], at: usize, k: u8, request: Request)
    ensures { log.new ≡ entered_in_log (at + k) request log.old }
{
    let capacity = log.len() / 2;
    if at <= capacity {
        if k as usize <= capacity - at {
            let place = (at + k as usize) * 2;
            let gate = request.gate;
            store(log, place, gate.0);
            store(log, place + 1, request.vector);
        }
    }
}

// The first of the entries, behind the log's last; past the log's end nothing is stored.
#[tactic(auto, using(laws::proofs::Turning::turn_more), unfolding(crate::specs::Delivery::written))]
pub fn write(log: &mut [u8], at: usize, entries: [Request; Task::WAITING], count: u8)
    ensures { log.new ≡ written at entries count log.old }
{
    for k in 0..count {
        let entry = reads::at(&entries, k.into(), channels::no_request());
        enter(log, at, k, entry);
    }
}

// The oldest message of task t's channel to gate g.
#[tactic(auto, unfolding(crate::specs::Delivery::delivered_at_gate))]
fn to_gate(rules: Rules<'_>, s: State, t: TaskNo, g: GateNo) -> Delivered
    requires { g.0 < 16 }
    ensures { result ≡ delivered_at_gate rules.entry.vectors.now rules.entry.masks.now s t.0 g.0 (pop_of s (ToGate t g)) }
{
    let i = usize::from(g.0);
    let taken = s.pop(Link::ToGate(t, g));
    let Some(message) = taken.front else {
        return refused(s, Refusal::ChannelEmpty);
    };
    let k = s.gates[i];
    let w = gates::at_gate(rules.at_gate(g), t, k, message);
    if !w.ok {
        return refused(s, Refusal::Excluded);
    }
    let gate = w.gate;
    let mut popped = taken.after;
    popped.gates[i] = gate;
    Delivered {
        state: popped,
        answer: Ok(()),
    }
}

// The oldest message of a channel to task b.
#[tactic(auto, unfolding(crate::specs::Delivery::delivered_at_task))]
fn to_task(rules: Rules<'_>, s: State, log: &mut [u8], link: Link, b: TaskNo) -> Delivered
    requires { (b.0 < 16) × (s.logged ≤ length log.old / 2) }
    ensures state { result ≡ given_back (delivered_at_task rules.entry.moves.now rules.entry.masks.now rules.entry.gates s log.old b.0 (pop_of s link)) }
    ensures bytes { log.new ≡ (delivered_at_task rules.entry.moves.now rules.entry.masks.now rules.entry.gates s log.old b.0 (pop_of s link)).log }
{
    let taken = s.pop(link);
    let Some(message) = taken.front else {
        return refused(s, Refusal::ChannelEmpty);
    };
    let p = s.tasks[usize::from(b.0)];
    let w = Seat { rules, number: b }.at_task(p, message);
    let popped = taken.after;
    settled(s, popped, log, b, w)
}

// A task's work settled: its state and entries, or a refusal.
fn settled(s: State, mut popped: State, log: &mut [u8], b: TaskNo, w: Work) -> Delivered
    requires { (b.0 < 16) × (s.logged ≤ length log.old / 2) }
    ensures state { result ≡ given_back (settled_at_task s popped log.old b.0 w) }
    ensures bytes { log.new ≡ (settled_at_task s popped log.old b.0 w).log }
{
    let i = usize::from(b.0);
    let at = s.logged;
    let fired = usize::from(w.fired);
    if !w.ok {
        return refused(s, Refusal::Excluded);
    }
    if log.len() / 2 - at < fired {
        return refused(s, Refusal::LogFull);
    }
    let task = w.task;
    let entries = w.entries;
    popped.tasks[i] = task;
    popped.logged = at + fired;
    write(log, at, entries, w.fired);
    Delivered {
        state: popped,
        answer: Ok(()),
    }
}

// The oldest message of a channel, at its receiver.
fn along(rules: Rules<'_>, s: State, log: &mut [u8], link: Link) -> Delivered
    requires { (LinkWithin 16 16 link) × (s.logged ≤ length log.old / 2) }
    ensures state { result ≡ given_back (along rules.entry.moves.now rules.entry.masks.now rules.entry.gates s log.old rules.entry.vectors.now link) }
    ensures bytes { log.new ≡ (along rules.entry.moves.now rules.entry.masks.now rules.entry.gates s log.old rules.entry.vectors.now link).log }
{
    match link {
        Link::ToGate(t, g) => to_gate(rules, s, t, g),
        Link::FromGate(_, b) => to_task(rules, s, log, link, b),
        Link::ToTask(_, b) => to_task(rules, s, log, link, b),
    }
}

// Number 11: whether the table, the state and the log count against a log of this length are sound.
#[tactic(auto, unfolding(crate::specs::Delivery::sound_for))]
pub fn is_sound(table: Table, s: State, length: usize) -> bool
    ensures { result ≡ sound_for table s length }
{
    let parts = sound_state::sound(table.rules(), s);
    soundness::sound(table) & (parts & (s.logged <= length / 2))
}

// Makes one delivery, or refuses it with state and log as they are.
#[tactic(auto, unfolding(crate::specs::Delivery::delivered, crate::specs::Delivery::between))]
pub fn deliver(table: Table, s: State, log: &mut [u8], from: u8, to: u8) -> Delivered
    ensures state { result ≡ given_back (delivered table s log.old from to) }
    ensures bytes { log.new ≡ (delivered table s log.old from to).log }
{
    if !is_sound(table, s, log.len()) {
        return refused(s, Refusal::Unsound);
    }
    let a = numbers::resolve(table.tasks, table.gates, from);
    let b = numbers::resolve(table.tasks, table.gates, to);
    match way_between(a, b) {
        None => refused(s, Refusal::NoChannel),
        Some(link) => along(table.rules(), s, log, link),
    }
}
