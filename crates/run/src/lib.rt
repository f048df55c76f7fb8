// A run of deliveries until the first refusal.
#![tactic(auto)]

ghost use Rattle.std.specs.Prelude.{◌≡◌, ◌≢◌, ◌+◌, ◌-◌, ◌/◌, ◌≤◌, ◌<◌, ltb};
ghost use Rattle.state.specs.declared.Link.TheVariants.{ToGate, FromGate, ToTask};
ghost use Rattle.state.specs.States.{pop_of};
ghost use Rattle.delivery.specs.Delivery.{delivered_at_gate, delivered_at_task};
ghost use Rattle.delivery.specs.Within.{LinkWithin};
ghost use Rattle.run.specs.Parts.{answered, received};
ghost use Rattle.run.specs.Run.{course_begun, course, ran_of, stepped_by};

use answers::{Answer, Refusal};
use channels::{Channel, Channel1};
use numbers::{GateNo, TaskNo};
use schedule::Delivery;
use state::{Link, State};
use table::Rules;
use tasks::Seat;

// The state after the run, the last answer, and how many deliveries were done, which counts after a
// refusal too.
#[derive(Clone, Copy, Debug, PartialEq, Eq)]
pub struct Ran {
    pub state: State,
    pub answer: Answer,
    pub made: usize,
}

// Makes the deliveries of a schedule file in turn until one is refused: so many as `schedule::read`
// says that it has, or fewer.
pub fn run(rules: Rules<'_>, mut s: State, log: &mut [u8], file: &[u8], count: usize) -> Ran
    ensures state { result ≡ ran_of (course (stepped_by rules.entry.moves.now rules.entry.vectors.now rules.entry.masks.now rules.entry.tasks rules.entry.gates) file.now count (course_begun s log.old)) }
    ensures bytes { log.new ≡ (course (stepped_by rules.entry.moves.now rules.entry.vectors.now rules.entry.masks.now rules.entry.tasks rules.entry.gates) file.now count (course_begun s log.old)).log }
{
    for i in 0..count {
        if let Err(refusal) = step(rules, &mut s, log, schedule::delivery_at(file, i)) {
            return Ran {
                state: s,
                answer: Err(refusal),
                made: i,
            };
        }
    }
    Ran {
        state: s,
        answer: Ok(()),
        made: count,
    }
}

// One delivery of a run, made in place: a call that takes the state by value would copy it. A refused
// one leaves state and log as they are.
fn step(rules: Rules<'_>, s: &mut State, log: &mut [u8], d: Delivery) -> Answer
    ensures answer { result ≡ (stepped_by rules.entry.moves.now rules.entry.vectors.now rules.entry.masks.now rules.entry.tasks rules.entry.gates s.old log.old d).answer }
    ensures state { s.new ≡ (stepped_by rules.entry.moves.now rules.entry.vectors.now rules.entry.masks.now rules.entry.tasks rules.entry.gates s.old log.old d).state }
    ensures bytes { log.new ≡ (stepped_by rules.entry.moves.now rules.entry.vectors.now rules.entry.masks.now rules.entry.tasks rules.entry.gates s.old log.old d).log }
{
    let from = numbers::resolve(rules.tasks, rules.gates, d.from);
    let to = numbers::resolve(rules.tasks, rules.gates, d.to);
    let Some(link) = delivery::way_between(from, to) else {
        return Err(Refusal::NoChannel);
    };
    match link {
        Link::ToGate(t, g) => to_gate(rules, s, t, g),
        Link::FromGate(g, b) => from_gate(rules, s, log, g, b),
        Link::ToTask(a, b) => to_task(rules, s, log, a, b),
    }
}

// What a receiver does with the filler of an empty channel is not looked at, here and below.
fn to_gate(rules: Rules<'_>, s: &mut State, t: TaskNo, g: GateNo) -> Answer
    requires { LinkWithin 16 16 (ToGate t g) }
    ensures answer { result ≡ (delivered_at_gate rules.entry.vectors.now rules.entry.masks.now s.old t.0 g.0 (pop_of s.old (ToGate t g))).answer }
    ensures state { s.new ≡ (delivered_at_gate rules.entry.vectors.now rules.entry.masks.now s.old t.0 g.0 (pop_of s.old (ToGate t g))).state }
{
    let x = t.0 as usize;
    let z = g.0 as usize;
    let channel = s.tasks[x].up[z];
    let receiver = s.gates[z];
    let work = gates::at_gate(rules.at_gate(g), t, receiver, channel.first);
    answered(channel.count == 0, work.ok, false)?;
    let gate = work.gate;
    s.tasks[x].up[z] = channel.popped();
    s.gates[z] = gate;
    Ok(())
}

// This and `to_task` differ in where the sender's channel lies. Neither can lend it: the receiver works on
// the whole state before the channel is emptied.
fn from_gate(rules: Rules<'_>, s: &mut State, log: &mut [u8], g: GateNo, b: TaskNo) -> Answer
    requires { LinkWithin 16 16 (FromGate g b) }
    ensures answer { result ≡ (delivered_at_task rules.entry.moves.now rules.entry.masks.now rules.entry.gates s.old log.old b.0 (pop_of s.old (FromGate g b))).answer }
    ensures state { s.new ≡ (delivered_at_task rules.entry.moves.now rules.entry.masks.now rules.entry.gates s.old log.old b.0 (pop_of s.old (FromGate g b))).state }
    ensures bytes { log.new ≡ (delivered_at_task rules.entry.moves.now rules.entry.masks.now rules.entry.gates s.old log.old b.0 (pop_of s.old (FromGate g b))).log }
{
    let z = g.0 as usize;
    let y = b.0 as usize;
    let channel = s.gates[z].down[y];
    at_task(rules, s, log, b, channel)?;
    s.gates[z].down[y] = Channel1::empty();
    Ok(())
}

fn to_task(rules: Rules<'_>, s: &mut State, log: &mut [u8], a: TaskNo, b: TaskNo) -> Answer
    requires within { LinkWithin 16 16 (ToTask a b) }
    requires apart { a.0 ≢ b.0 }
    ensures answer { result ≡ (delivered_at_task rules.entry.moves.now rules.entry.masks.now rules.entry.gates s.old log.old b.0 (pop_of s.old (ToTask a b))).answer }
    ensures state { s.new ≡ (delivered_at_task rules.entry.moves.now rules.entry.masks.now rules.entry.gates s.old log.old b.0 (pop_of s.old (ToTask a b))).state }
    ensures bytes { log.new ≡ (delivered_at_task rules.entry.moves.now rules.entry.masks.now rules.entry.gates s.old log.old b.0 (pop_of s.old (ToTask a b))).log }
{
    let x = a.0 as usize;
    let y = b.0 as usize;
    let channel = s.tasks[x].across[y];
    at_task(rules, s, log, b, channel)?;
    s.tasks[x].across[y] = Channel1::empty();
    Ok(())
}

// The message of a channel at the task that receives it. The channel is the sender's to empty.
fn at_task(rules: Rules<'_>, s: &mut State, log: &mut [u8], b: TaskNo, channel: Channel1) -> Answer
    requires { b.0 < 16 }
    ensures answer { result ≡ (received rules.entry.moves.now rules.entry.masks.now rules.entry.gates s.old log.old b.0 channel).answer }
    ensures state { s.new ≡ (received rules.entry.moves.now rules.entry.masks.now rules.entry.gates s.old log.old b.0 channel).state }
    ensures bytes { log.new ≡ (received rules.entry.moves.now rules.entry.masks.now rules.entry.gates s.old log.old b.0 channel).log }
{
    let y = b.0 as usize;
    let n = s.logged;
    let receiver = s.tasks[y];
    let work = Seat { rules, number: b }.at_task(receiver, channel.first);
    let full = is_full(log.len(), n, work.fired);
    answered(channel.count == 0, work.ok, full)?;
    let task = work.task;
    let entries = work.entries;
    s.tasks[y] = task;
    s.logged = counted(log.len(), n, work.fired);
    delivery::write(log, n, entries, work.fired);
    Ok(())
}

// The entries for which a log of this length has room behind the first `logged`. Numbers, here and
// below, and not the log: that is lent to be written.
fn free_room(length: usize, logged: usize) -> usize
    ensures { result ≡ length / 2 - logged }
{
    (length / 2).saturating_sub(logged)
}

// Whether these entries find too little room there.
fn is_full(length: usize, logged: usize, fired: u8) -> bool
    ensures { result ≡ ltb (length / 2 - logged) fired }
{
    free_room(length, logged) < usize::from(fired)
}

// The log's count with so many entries more, which find room.
fn counted(length: usize, logged: usize, fired: u8) -> usize
    requires { fired ≤ length / 2 - logged }
    ensures { result ≡ logged + fired }
{
    logged + usize::from(fired)
}

// The answer to a delivery after 11 and 8, in this order: 9 of an empty channel, 12 where the receiver's work is not allowed,
// 10 of a full log.
#[tactic(auto, unfolding(crate::specs::Parts::answered))]
fn answered(empty: bool, ok: bool, full: bool) -> Answer
    ensures { result ≡ answered empty ok full }
{
    if empty {
        return Err(Refusal::ChannelEmpty);
    }
    if !ok {
        return Err(Refusal::Excluded);
    }
    if full {
        return Err(Refusal::LogFull);
    }
    Ok(())
}
