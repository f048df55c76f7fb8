// The lines that program desk prints, typed on a sheet.
#![tactic(auto)]

ghost use Rattle.std.specs.Prelude.{◌+◌, ◌*◌, ◌≡◌, get_or};
ghost use Rattle.state.specs.States.{task_of};
ghost use Rattle.text.specs.Sheets.{with_typed};
ghost use Rattle.report.specs.Report.{refusal, quiet_word, summary, entry_line, entry_lines, states, states_line, report};

use numbers::GateNo;
use state::State;
use text::Sheet;

#[tactic(auto, using(text::proofs::Sheets::with_after))]
pub fn refusal(sheet: &mut Sheet, number: u8, place: usize)
    ensures { sheet.new ≡ with_typed (refusal number place) sheet.old }
{
    sheet.put_field(b"answer ", number as usize);
    sheet.put_field(b" at ", place);
    sheet.put_word(b"\n");
}

// The answer's number, the deliveries made, the entries logged, and whether the line is quiet; then
// the log's entries and the states of the tasks.
#[tactic(auto, using(text::proofs::Sheets::with_after), unfolding(crate::specs::Report::report))]
pub fn report(
    sheet: &mut Sheet,
    masks: &[u16],
    tasks: u8,
    number: u8,
    made: usize,
    quiet: bool,
    s: State,
    log: &[u8],
)
    ensures { sheet.new ≡ with_typed (report masks.now tasks number made quiet s log.now) sheet.old }
{
    summary(sheet, number, made, s.logged, quiet);
    entry_lines(sheet, masks, log, s.logged);
    states_line(sheet, &s, tasks);
}

#[tactic(auto, using(text::proofs::Sheets::with_after))]
fn summary(sheet: &mut Sheet, number: u8, made: usize, logged: usize, quiet: bool)
    ensures { sheet.new ≡ with_typed (summary number made logged quiet) sheet.old }
{
    sheet.put_field(b"answer ", number as usize);
    sheet.put_field(b" delivered ", made);
    sheet.put_field(b" log ", logged);
    sheet.put_word(quiet_word(quiet));
}

fn quiet_word(quiet: bool) -> &'static [u8]
    ensures { result.now ≡ quiet_word quiet }
{
    if quiet {
        b" quiet yes\n"
    } else {
        b" quiet no\n"
    }
}

// One list of the table and the log, for this and the next alone.
#[tactic(auto, using(text::proofs::Sheets::joined_none, text::proofs::Sheets::joined_turn))]
fn entry_lines(sheet: &mut Sheet, masks: &[u16], log: &[u8], logged: usize)
    ensures { sheet.new ≡ with_typed (entry_lines masks.now log.now logged) sheet.old }
{
    for i in 0..logged {
        entry_line(sheet, masks, log, i);
    }
}

#[tactic(auto, using(text::proofs::Sheets::with_after))]
fn entry_line(sheet: &mut Sheet, masks: &[u16], log: &[u8], i: usize)
    ensures { sheet.new ≡ with_typed (entry_line masks.now log.now i) sheet.old }
{
    let (gate, vector) = entry_at(log, i);
    let mask = table::mask_at(masks, GateNo(gate), vector);
    sheet.put_field(b"fire gate ", gate as usize);
    sheet.put_field(b" vector ", vector as usize);
    sheet.put_field(b" tasks ", mask as usize);
    sheet.put_word(b"\n");
}

// The gate and the vector of an entry. An entry that the log has no room for reads as 0, and is told
// from the others before its place is doubled.
fn entry_at(log: &[u8], i: usize) -> (u8, u8)
    ensures gate { result.0 ≡ get_or log.now (i * 2) 0 }
    ensures vector { result.1 ≡ get_or log.now (i * 2 + 1) 0 }
{
    if i <= log.len() / 2 {
        (reads::at(log, i * 2, 0), reads::at(log, i * 2 + 1, 0))
    } else {
        (0, 0)
    }
}

#[tactic(auto, using(text::proofs::Sheets::with_after))]
fn states_line(sheet: &mut Sheet, s: &State, tasks: u8)
    ensures { sheet.new ≡ with_typed (states_line s.now tasks) sheet.old }
{
    sheet.put_word(b"state");
    states(sheet, s, tasks);
    sheet.put_word(b"\n");
}

#[tactic(auto, using(text::proofs::Sheets::joined_none, text::proofs::Sheets::joined_turn))]
fn states(sheet: &mut Sheet, s: &State, tasks: u8)
    ensures { sheet.new ≡ with_typed (states s.now tasks) sheet.old }
{
    for t in 0..tasks {
        sheet.put_field(b" ", state_of(s, t) as usize);
    }
}

fn state_of(s: &State, t: u8) -> u8
    ensures { result ≡ (task_of s.now t).state }
{
    s.tasks.get(t as usize).map_or(0, |p| p.state)
}
