// The rounds of a measurement.
ghost use Rattle.std.specs.Prelude.{◌≡◌};
ghost use Rattle.run.specs.Run.{course_begun, course, delivered_by, ran_of};
ghost use Rattle.bench.specs.Rounds.{mode_of, round_of, rounds_of};

use run::Ran;
use state::State;
use table::Table;

// What a round does: no delivery, all of them, or all of them with the check of number 11 in each.
#[derive(Clone, Copy, Debug, PartialEq, Eq)]
pub enum Mode {
    Idle,
    Unchecked,
    Checked,
}

impl From<u8> for Mode {
    fn from(number: u8) -> Self
        ensures { result ≡ mode_of number }
    {
        match number {
            1 => Mode::Unchecked,
            2 => Mode::Checked,
            _ => Mode::Idle,
        }
    }
}

// So many rounds, and what the last of them left.
#[tactic(auto, unfolding(crate::specs::Rounds::rounds_of))]
pub fn repeated(
    mode: Mode,
    table: Table,
    log: &mut [u8],
    schedule: &[u8],
    count: usize,
    rounds: usize,
) -> Ran
    ensures state { result ≡ ran_of (rounds_of mode table schedule.now count rounds log.old) }
    ensures bytes { log.new ≡ (rounds_of mode table schedule.now count rounds log.old).log }
{
    let mut ran = Ran {
        state: State::empty(),
        answer: Ok(()),
        made: 0,
    };
    for _ in 0..rounds {
        ran = round(mode, table, log, schedule, count);
    }
    ran
}

// One round, from a fresh line on.
#[tactic(auto, unfolding(crate::specs::Rounds::round_of, run::specs::Run::course))]
fn round(mode: Mode, table: Table, log: &mut [u8], schedule: &[u8], count: usize) -> Ran
    ensures state { result ≡ ran_of (round_of mode table schedule.now count log.old) }
    ensures bytes { log.new ≡ (round_of mode table schedule.now count log.old).log }
{
    let started = fresh::fresh(table);
    let count = match mode {
        Mode::Checked => return delivered(table, started.state, log, schedule, count),
        Mode::Unchecked => count,
        Mode::Idle => 0,
    };
    run::run(table.rules(), started.state, log, schedule, count)
}

// Makes the deliveries of a schedule in turn until one is refused, and asks number 11 in each. `run` has
// this loop with a step in place, which is what is measured beside it.
#[tactic(auto, unfolding(run::specs::Run::course))]
fn delivered(table: Table, mut s: State, log: &mut [u8], schedule: &[u8], count: usize) -> Ran
    ensures state { result ≡ ran_of (course (delivered_by table) schedule.now count (course_begun s log.old)) }
    ensures bytes { log.new ≡ (course (delivered_by table) schedule.now count (course_begun s log.old)).log }
{
    for i in 0..count {
        let d = schedule::delivery_at(schedule, i);
        let r = delivery::deliver(table, s, log, d.from, d.to);
        s = r.state;
        if let Err(refusal) = r.answer {
            return Ran {
                state: s,
                answer: Err(refusal),
                made: i,
            };
        }
    }
    Ran {
        state: s,
        answer: Ok(()),
        made: count,
    }
}
