// What program desk prints for the bytes of its two files.
#![tactic(auto)]

ghost use Rattle.std.specs.Prelude.{true, ◌≡◌};
ghost use Rattle.schedule.specs.Schedules.{schedule_of};
ghost use Rattle.soundness.specs.Sound.{sound_table};
ghost use Rattle.fresh.specs.Fresh.{fresh};
ghost use Rattle.run.specs.Run.{course_begun, course, delivered_by};
ghost use Rattle.text.specs.Text.{typed};
ghost use Rattle.text.specs.Sheets.{with_typed};
ghost use Rattle.printed.specs.Printed.{of_course, of_schedule, printed};

use table::Table;
use text::Sheet;

// Typed into a buffer from its start on. Gives back how many bytes are typed; the log is as the last
// delivery left it. Slices and no sheet: they come so from C, by the library's call.
#[tactic(auto, using(accepted::proofs::Accepted::accepted_sound), unfolding(crate::specs::Printed::printed, text::specs::Sheets::with_typed))]
pub fn print<'a>(
    table: &'a [u8],
    schedule: &'a [u8],
    log: &'a mut [u8],
    text: &'a mut [u8],
) -> usize
    ensures bytes { text.new ≡ (typed (printed table.now schedule.now log.old).text (record { bytes = text.old; at = 0 })).bytes }
    ensures count { result ≡ (typed (printed table.now schedule.now log.old).text (record { bytes = text.old; at = 0 })).at }
    ensures entries { log.new ≡ (printed table.now schedule.now log.old).log }
{
    let mut sheet = Sheet { bytes: text, at: 0 };
    let loaded = reader::read(table);
    let answer = loaded.answer;
    if answer.is_ok() {
        let accepted = loaded.table;
        with_schedule(accepted, schedule, log, &mut sheet);
    } else {
        report::refusal(&mut sheet, answers::number(answer), loaded.place);
    }
    sheet.at
}

// The same by an accepted table.
fn with_schedule(table: Table, schedule: &[u8], log: &mut [u8], sheet: &mut Sheet)
    requires { sound_table table ≡ true }
    ensures text { sheet.new ≡ with_typed (of_schedule table schedule.now log.old (schedule_of schedule.now)).text sheet.old }
    ensures entries { log.new ≡ (of_schedule table schedule.now log.old (schedule_of schedule.now)).log }
{
    let listed = schedule::read(schedule);
    let answer = listed.answer;
    if answer.is_ok() {
        with_deliveries(table, schedule, listed.count, log, sheet);
    } else {
        report::refusal(sheet, answers::number(answer), listed.place);
    }
}

// A line started fresh, and its deliveries made until one is refused.
#[tactic(auto, using(crate::proofs::Started::fresh_course))]
fn with_deliveries(table: Table, schedule: &[u8], count: usize, log: &mut [u8], sheet: &mut Sheet)
    requires { sound_table table ≡ true }
    ensures text { sheet.new ≡ with_typed (of_course table (course (delivered_by table) schedule.now count (course_begun (fresh table).state log.old))).text sheet.old }
    ensures entries { log.new ≡ (course (delivered_by table) schedule.now count (course_begun (fresh table).state log.old)).log }
{
    let started = fresh::fresh(table);
    let s = started.state;
    let ran = run::run(table.rules(), s, log, schedule, count);
    let answer = ran.answer;
    let after = ran.state;
    report::report(
        sheet,
        &table.masks,
        table.tasks,
        answers::number(answer),
        ran.made,
        quiet::quiet(after),
        after,
        log,
    );
}
