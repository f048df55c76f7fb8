// Whether a state keeps the rules that number 11 asks of it: a function for each. A whole list of
// places is first looked at for what most hold, which is nothing, and only another is gone through
// with the table.
#![tactic(auto)]

ghost use Rattle.std.specs.Prelude.{◌≡◌, ℕ, Bool, get_or};
ghost use Rattle.laws.specs.Below.{all_below};
ghost use Rattle.channels.specs.declared.Message.{Message};
ghost use Rattle.sound_state.specs.Quiet.{none_waits, is_empty, is_silent, is_ready_only, all_ready};
ghost use Rattle.sound_state.specs.SoundState.{is_no_request, names, mode_sound, up_fits, up_sound, across_fits, down_fits, deal_sound, task_sound, gate_sound, sound_state};
ghost use Rattle.sound_state.specs.Parts.{place, room, state_sound, one_sound, waiting_sound, waitings_sound, ups_sound, channels_sound, TestsBy, AnswersBy};

use channels::{Channel1, Channel3, Message, Request};
use numbers::{GateNo, TaskNo};
use state::{Deal, Gate, Mode, State, Task};
use table::{Rules, Table};

// Whether a state keeps the rules that number 11 asks of it.
pub fn sound(rules: Rules<'_>, s: State) -> bool
    ensures { result ≡ sound_state rules.entry.vectors.now rules.entry.masks.now rules.entry.tasks rules.entry.gates rules.entry.states.now s }
{
    let tasks = every(&s.tasks, |t, p| task_sound(rules, TaskNo(t), p));
    tasks & every(&s.gates, |g, k| gate_sound(rules, GateNo(g), k))
}

// Whether each place of a list passes a test of its number and what it holds. Unlike `.all(..)` this
// goes on past a place that fails, so that the places are compared side by side. Crate soundness has
// the like over numbers; one for both would be public and ask something of its callers.
fn every<T: Copy, F: Fn(u8, T) -> bool>(places: &[T; 16], passes: F) -> bool
    requires { F.IsAlwaysCallable passes }
    ensures { (P : ℕ → Bool) → TestsBy (F.post passes) places.now P → result ≡ all_below 16 P }
{
    let mut ok = true;
    for (i, x) in places.iter().enumerate() {
        ok = passes(i as u8, *x) & ok;
    }
    ok
}

// A task's number stands beside the rules, here and below: `Seat`, which has both, is of a crate above.
fn task_sound(rules: Rules<'_>, task: TaskNo, p: Task) -> bool
    ensures { result ≡ task_sound rules.entry.vectors.now rules.entry.masks.now rules.entry.tasks rules.entry.gates task.0 (get_or rules.entry.states.now task.0 0) p }
{
    let present = task.0 < rules.tasks;
    let states = reads::at(rules.states, task.0.into(), 0);
    let state = state_sound(present, states, p.state);
    let mode = mode_sound(rules, task, p.count, p.mode);
    let few = usize::from(p.count) <= Task::WAITING;
    let waiting = waitings_sound(rules, task, p.count, &p.waiting);
    let up = ups_sound(present, rules.gates, &p.up);
    let across = channels_sound(present, rules.tasks, &p.across, |to, message| {
        across_fits(rules, task, to, message)
    });
    (state & (mode & few)) & (waiting & (up & across))
}

fn gate_sound(rules: Rules<'_>, gate: GateNo, k: Gate) -> bool
    ensures { result ≡ gate_sound rules.entry.vectors.now rules.entry.masks.now rules.entry.tasks rules.entry.gates gate.0 k }
{
    let present = gate.0 < rules.gates;
    let offers = sets::all_below(k.offers, room_of(present, rules.tasks));
    let deal = deal_sound(rules, gate, k.deal);
    let down = channels_sound(present, rules.tasks, &k.down, |to, message| {
        down_fits(rules, gate, to, message)
    });
    offers & deal & down
}

// Room there is only between parties that are present.
fn room_of(present: bool, n: u8) -> u8
    ensures { result ≡ room present n }
{
    if present { n } else { 0 }
}

// A place in use holds what fits there, and any other the filler.
fn place_holds(used: bool, fits: bool, empty: bool) -> bool
    ensures { result ≡ place used fits empty }
{
    if used { fits } else { empty }
}

fn state_sound(present: bool, states: u8, state: u8) -> bool
    ensures { result ≡ state_sound present states state }
{
    if present { state < states } else { state == 0 }
}

// Whether a request names an existing vector that holds a task.
fn names_held(rules: Rules<'_>, task: TaskNo, request: Request) -> bool
    ensures { result ≡ names rules.entry.vectors.now rules.entry.masks.now task.0 request }
{
    let vectors = rules.at_gate(request.gate);
    (request.vector < vectors.count) & sets::member(vectors.mask(request.vector), task)
}

fn mode_sound(rules: Rules<'_>, task: TaskNo, count: u8, mode: Mode) -> bool
    ensures { result ≡ mode_sound rules.entry.vectors.now rules.entry.masks.now task.0 count mode }
{
    match mode {
        Mode::Free => count == 0,
        Mode::Held(request) => {
            let mask = rules.mask_at(request.gate, request.vector);
            names_held(rules, task, request) & sets::next_above(mask, task).is_some()
        }
    }
}

fn waitings_sound(
    rules: Rules<'_>,
    task: TaskNo,
    count: u8,
    waiting: &[Request; Task::WAITING],
) -> bool
    ensures { result ≡ waitings_sound rules.entry.vectors.now rules.entry.masks.now task.0 count waiting.now }
{
    if (count == 0) & none_waits(waiting) {
        return true;
    }
    every(waiting, |i, request| {
        waiting_sound(rules, task, i < count, request)
    })
}

fn none_waits(waiting: &[Request; Task::WAITING]) -> bool
    ensures { result ≡ none_waits waiting.now }
{
    every(waiting, |_, request| is_no_request(request))
}

fn waiting_sound(rules: Rules<'_>, task: TaskNo, used: bool, request: Request) -> bool
    ensures { result ≡ waiting_sound rules.entry.vectors.now rules.entry.masks.now task.0 used request }
{
    if used {
        names_held(rules, task, request)
    } else {
        is_no_request(request)
    }
}

fn is_no_request(request: Request) -> bool
    ensures { result ≡ is_no_request request }
{
    request == channels::no_request()
}

#[tactic(auto, using(crate::proofs::Keep::ready_sound))]
fn ups_sound(present: bool, gates: u8, up: &[Channel3; Table::GATES]) -> bool
    ensures { result ≡ ups_sound present gates up.now }
{
    if all_ready(present, gates, up) {
        return true;
    }
    every(up, |g, c| up_sound(present & (g < gates), GateNo(g), c))
}

// Whether no channel to a gate holds anything but READY, and each is within its room.
fn all_ready(present: bool, gates: u8, up: &[Channel3; Table::GATES]) -> bool
    ensures { result ≡ all_ready present gates up.now }
{
    every(up, |g, c| is_ready_only(present & (g < gates), c))
}

fn is_ready_only(present: bool, c: Channel3) -> bool
    ensures { result ≡ is_ready_only present c }
{
    let within = c.count <= room_of(present, 3);
    within & (c.first.is_ready() & (c.second.is_ready() & c.third.is_ready()))
}

fn up_sound(present: bool, gate: GateNo, c: Channel3) -> bool
    ensures { result ≡ up_sound present gate.0 c }
{
    let within = c.count <= room_of(present, 3);
    let oldest = place_holds(0 < c.count, up_fits(gate, c.first), c.first.is_ready());
    let middle = place_holds(1 < c.count, up_fits(gate, c.second), c.second.is_ready());
    let newest = place_holds(2 < c.count, up_fits(gate, c.third), c.third.is_ready());
    within & (oldest & (middle & newest))
}

fn up_fits(gate: GateNo, message: Message) -> bool
    ensures { result ≡ up_fits gate.0 message }
{
    match message {
        Message::Ready => true,
        Message::Lock(_) => false,
        Message::Commit(of) | Message::Abort(of) => of == gate,
    }
}

// The channels to the tasks, where `fits` says what may be sent to each.
#[tactic(auto, using(crate::proofs::Keep::silent_channels))]
fn channels_sound<F: Fn(TaskNo, Message) -> bool>(
    present: bool,
    tasks: u8,
    channels: &[Channel1; Table::TASKS],
    fits: F,
) -> bool
    requires { F.IsAlwaysCallable fits }
    ensures { (P : ℕ → Message → Bool) → AnswersBy (F.post fits) P → result ≡ channels_sound present tasks P channels.now }
{
    if is_silent(channels) {
        return true;
    }
    every(channels, |b, c| {
        one_sound(present & (b < tasks), fits(TaskNo(b), c.first), c)
    })
}

// Whether no channel to a task holds a message.
fn is_silent(channels: &[Channel1; Table::TASKS]) -> bool
    ensures { result ≡ is_silent channels.now }
{
    every(channels, |_, c| is_empty(c))
}

fn is_empty(c: Channel1) -> bool
    ensures { result ≡ is_empty c }
{
    (c.count == 0) & c.first.is_ready()
}

fn one_sound(present: bool, fits: bool, c: Channel1) -> bool
    ensures { result ≡ one_sound present fits c }
{
    (c.count <= room_of(present, 1)) & place_holds(0 < c.count, fits, c.first.is_ready())
}

fn across_fits(rules: Rules<'_>, from: TaskNo, to: TaskNo, message: Message) -> bool
    ensures { result ≡ across_fits rules.entry.vectors.now rules.entry.masks.now rules.entry.gates from.0 to.0 message }
{
    match message {
        Message::Ready => false,
        Message::Lock(request) => (from < to) & names_held(rules, to, request),
        Message::Commit(of) | Message::Abort(of) => (to < from) & (of.0 < rules.gates),
    }
}

fn down_fits(rules: Rules<'_>, from: GateNo, to: TaskNo, message: Message) -> bool
    ensures { result ≡ down_fits rules.entry.vectors.now rules.entry.masks.now from.0 to.0 message }
{
    match message {
        Message::Lock(request) => (request.gate == from) & names_held(rules, to, request),
        Message::Ready | Message::Commit(_) | Message::Abort(_) => false,
    }
}

fn deal_sound(rules: Rules<'_>, gate: GateNo, deal: Deal) -> bool
    ensures { result ≡ deal_sound rules.entry.vectors.now gate.0 deal }
{
    match deal {
        Deal::Idle => true,
        Deal::Dealing(vector) => vector < rules.vectors_at(gate),
    }
}
