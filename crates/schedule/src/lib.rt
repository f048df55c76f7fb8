// Reading a schedule file: the deliveries to be made, in order. Endpoints are not judged here.
#![tactic(auto)]

ghost use Rattle.std.specs.Prelude.{◌≡◌, Err};
ghost use Rattle.schedule.specs.Schedules.{fault_at, refused_of, ended_of, schedule_of, delivery_of};

use answers::{Answer, Refusal};

// How many deliveries there are and where the reading ended, or none and the refused record's place.
// No `Result`, since the paper says what comes back with a refusal too.
#[derive(Clone, Copy, Debug, PartialEq, Eq)]
pub struct Schedule {
    pub answer: Answer,
    pub place: usize,
    pub count: usize,
}

// A delivery's two endpoints.
#[derive(Clone, Copy, Debug, PartialEq, Eq)]
pub struct Delivery {
    pub from: u8,
    pub to: u8,
}

#[tactic(auto, unfolding(crate::specs::Schedules::schedule_of))]
pub fn read(file: &[u8]) -> Schedule
    ensures { result ≡ schedule_of file.now }
{
    if 60000 < file.len() {
        return refused(Refusal::TooMany, 60000);
    }
    let mut count: usize = 0;
    let mut at: usize = 0;
    // No `for`: where the next record starts is known only when this one is read.
    while at < file.len() {
        if let Err(refusal) = fault_at(file, at) {
            return refused(refusal, at);
        }
        count += 1;
        at += format::size_at(file, at);
    }
    Schedule {
        answer: Ok(()),
        place: file.len(),
        count,
    }
}

// The table's reader has its like, which fills another struct.
fn refused(refusal: Refusal, place: usize) -> Schedule
    ensures { result ≡ refused_of (Err refusal) place }
{
    Schedule {
        answer: Err(refusal),
        place,
        count: 0,
    }
}

// The first fault of the record at a place: a schedule has deliveries only, kind 5.
#[tactic(auto, unfolding(crate::specs::Schedules::fault_at))]
fn fault_at(file: &[u8], at: usize) -> Answer
    ensures { result ≡ fault_at file.now at }
{
    let kind = format::kind_at(file, at);
    if kind == 5 {
        return format::head_fault(file, at, Ok(()));
    }
    format::head_fault(file, at, Err(Refusal::Kind))
}

// The delivery with a number, of a file that was accepted; from task 0 to itself where there is none,
// which its promise says.
#[tactic(auto, unfolding(crate::specs::Schedules::delivery_of))]
pub fn delivery_at(file: &[u8], number: usize) -> Delivery
    ensures { result ≡ delivery_of file.now number }
{
    if number < file.len() / 6 {
        let body = number * 6 + 4;
        return Delivery {
            from: reads::at(file, body, 0),
            to: reads::at(file, body + 1, 0),
        };
    }
    Delivery { from: 0, to: 0 }
}
