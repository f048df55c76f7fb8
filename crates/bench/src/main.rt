// Program bench, for tools/bench: runs a line many times over and prints what the last round left. Standard input has a
// mode, the number of rounds, the length of a table file and that of a schedule file, of four bytes each but the mode,
// and the two files; and as often again. bench/main.c does the same in C. A round starts the line fresh and, in mode 1,
// makes the deliveries of the schedule without asking number 11 again; in mode 2 it asks number 11 in each. In mode 0 it
// makes none, which is what the others have in common.
#![tactic(auto)]

mod rounds;

ghost use Rattle.std.specs.Prelude.{◌<◌, IfSome, length};

use rounds::Mode;
use std::io;
use text::Sheet;

const INPUT: usize = 262144;

const LOG: usize = 20000;

// Room for all that is printed of a log of that length.
const TEXT: usize = 400200;

#[derive(Clone, Copy, Debug)]
struct Line<'a> {
    mode: Mode,
    rounds: usize,
    file: &'a [u8],
    schedule: &'a [u8],
}

fn main(rt: HostRuntime) -> io::Result<()> {
    let mut input = [0u8; INPUT];
    let n = stream::fill(&mut rt.stdin(), &mut input);
    let mut rest = &input[..n];
    // Each program of cases has this loop: one for all would ask something of the closure that it calls.
    while let Some((line, behind)) = line_of(rest) {
        measure(&rt, line)?;
        rest = behind;
    }
    Ok(())
}

// The line that `rest` begins with, and what stands behind it. None where it is cut off.
fn line_of(rest: &[u8]) -> Option<(Line<'_>, &[u8])>
    ensures { IfSome result (λ p. length p.1.now < length rest.now) }
{
    let (&[mode], rest) = rest.split_first_chunk::<1>()?;
    let (rounds, rest) = rest.split_first_chunk::<4>()?;
    let (file, rest) = rest.split_first_chunk::<4>()?;
    let (schedule, rest) = rest.split_first_chunk::<4>()?;
    let (file, rest) = rest.split_at_checked(reads::four(file) as usize)?;
    let (schedule, rest) = rest.split_at_checked(reads::four(schedule) as usize)?;
    let line = Line {
        mode: Mode::from(mode),
        rounds: reads::four(rounds) as usize,
        file,
        schedule,
    };
    Some((line, rest))
}

fn measure(rt: &impl Print, line: Line<'_>) -> io::Result<()> {
    let mut log = [0u8; LOG];
    let mut text = [0u8; TEXT];
    let typed = print(line, &mut log, &mut text);
    let typed = text::within(&text, typed);
    rt.write_all(&text[..typed])
}

// Runs a line so many times, and types what the last round left. Gives back where the text ends.
fn print(line: Line<'_>, log: &mut [u8], text: &mut [u8]) -> usize {
    let mut sheet = Sheet { bytes: text, at: 0 };
    let loaded = reader::read(line.file);
    if loaded.answer.is_err() {
        report::refusal(&mut sheet, answers::number(loaded.answer), loaded.place);
        return sheet.at;
    }
    let listed = schedule::read(line.schedule);
    if listed.answer.is_err() {
        report::refusal(&mut sheet, answers::number(listed.answer), listed.place);
        return sheet.at;
    }
    let table = loaded.table;
    let ran = rounds::repeated(
        line.mode,
        table,
        log,
        line.schedule,
        listed.count,
        line.rounds,
    );
    let after = ran.state;
    report::report(
        &mut sheet,
        &table.masks,
        table.tasks,
        answers::number(ran.answer),
        ran.made,
        quiet::quiet(after),
        after,
        log,
    );
    sheet.at
}
