// What a message from a task does at a gate.
#![tactic(auto)]

ghost use Rattle.std.specs.Prelude.{◌≡◌};
ghost use Rattle.gates.specs.Gates.{offering, sent_down, searched_by, at_gate};
ghost use Rattle.gates.specs.Parts.{dealt_mask, ended_with, fitting_vector};

use channels::{Message, Request};
use numbers::TaskNo;
use state::{Deal, Gate};
use table::Vectors;

// The work of one delivery on its receiver: the gate so far, and whether all of it is allowed. A flag and
// no `Option`, as for a task's work.
#[derive(Clone, Copy, Debug, PartialEq, Eq)]
pub struct Work {
    pub gate: Gate,
    pub ok: bool,
}

// What the oldest message of a task's channel does at a gate.
#[tactic(auto, unfolding(crate::specs::Gates::at_gate, crate::specs::Gates::searched))]
pub fn at_gate(vectors: Vectors<'_>, from: TaskNo, k: Gate, message: Message) -> Work
    ensures { result ≡ at_gate vectors.entry.masks.now vectors.entry.count vectors.entry.gate.0 from.0 k message }
{
    let offers = k.offers;
    let deal = k.deal;
    let mask = dealt_mask(vectors, deal);
    match message {
        Message::Ready => {
            let next = offering(k, sets::with(offers, from), deal);
            searched(vectors, next, deal)
        }
        Message::Lock(_) => Work { gate: k, ok: false },
        Message::Commit(_) => {
            let left = sets::without(offers, from);
            ended(vectors, from, k, mask, left)
        }
        Message::Abort(_) => {
            let left = sets::without(sets::union(offers, mask), from);
            ended(vectors, from, k, mask, left)
        }
    }
}

// The tasks of the dealt vector; none where none is dealt, so that no result comes from one of them.
fn dealt_mask(vectors: Vectors<'_>, deal: Deal) -> u16
    ensures { result ≡ dealt_mask vectors.entry.masks.now vectors.entry.gate.0 deal }
{
    match deal {
        Deal::Idle => 0,
        Deal::Dealing(v) => vectors.mask(v),
    }
}

// A result by a task of the dealt vector: the gate becomes idle with these offers, and searches.
#[tactic(auto, unfolding(crate::specs::Gates::searched))]
fn ended(vectors: Vectors<'_>, from: TaskNo, k: Gate, mask: u16, offers: u16) -> Work
    ensures { result ≡ ended_with vectors.entry.masks.now vectors.entry.count vectors.entry.gate.0 from.0 k mask offers }
{
    if sets::member(mask, from) {
        return search(vectors, offering(k, offers, Deal::Idle));
    }
    Work { gate: k, ok: false }
}

// A gate that is idle searches.
fn searched(vectors: Vectors<'_>, k: Gate, deal: Deal) -> Work
    ensures { result ≡ searched_by vectors.entry.masks.now vectors.entry.count vectors.entry.gate.0 k deal }
{
    match deal {
        Deal::Idle => search(vectors, k),
        Deal::Dealing(_) => Work { gate: k, ok: true },
    }
}

// The lowest vector whose tasks are all in the offers, if there is one, is dealt.
fn search(vectors: Vectors<'_>, k: Gate) -> Work
    ensures { result ≡ searched_by vectors.entry.masks.now vectors.entry.count vectors.entry.gate.0 k Deal.Idle }
{
    match fitting(vectors, k.offers) {
        Some(vector) => {
            let mask = vectors.mask(vector);
            let next = offering(k, sets::minus(k.offers, mask), Deal::Dealing(vector));
            let gate = vectors.gate;
            to_task(
                next,
                sets::lowest(mask),
                Message::Lock(Request { gate, vector }),
            )
        }
        None => Work { gate: k, ok: true },
    }
}

// The lowest of a gate's vectors whose tasks are all in the offers.
fn fitting(vectors: Vectors<'_>, offers: u16) -> Option<u8>
    ensures { result ≡ fitting_vector vectors.entry.masks.now vectors.entry.count vectors.entry.gate.0 offers }
{
    for v in 0..vectors.count {
        if sets::subset(vectors.mask(v), offers) {
            return Some(v);
        }
    }
    None
}

// A message to a task. A full channel stays as it is, and is not allowed.
fn to_task(k: Gate, to: Option<TaskNo>, message: Message) -> Work
    ensures { result ≡ sent_down k to message }
{
    match to {
        None => Work { gate: k, ok: true },
        Some(b) => {
            let put = k.put_down(b, message);
            let gate = put.after;
            Work { gate, ok: put.room }
        }
    }
}

// The gate with other offers, dealing so.
fn offering(k: Gate, offers: u16, deal: Deal) -> Gate
    ensures { result ≡ offering k offers deal }
{
    Gate { offers, deal, ..k }
}
