// Runs the reader of tables and the reader of schedules over the cases of standard input, and prints a
// line for each. A case is a tag (T a table, S a schedule), the length of its name, the name, the length
// of the file to be read and that of the unit, of four bytes each, and the unit. The file is the unit,
// repeated and cut to its length. tools/make_read_cases.py writes the cases and the lines expected.
#![tactic(auto)]

ghost use Rattle.std.specs.Prelude.{◌<◌, ◌≤◌, IfSome, length};

use std::io;
use table::Table;

const INPUT: usize = 262144;

const ROOM: usize = 65536;

// What a file is read as.
#[derive(Clone, Copy, Debug, PartialEq, Eq)]
enum Kind {
    Table,
    Schedule,
}

impl TryFrom<u8> for Kind {
    type Error = u8;

    fn try_from(tag: u8) -> Result<Self, u8> {
        match tag {
            b'T' => Ok(Kind::Table),
            b'S' => Ok(Kind::Schedule),
            _ => Err(tag),
        }
    }
}

#[derive(Clone, Copy, Debug)]
struct Case<'a> {
    kind: Kind,
    name: &'a [u8],
    unit: &'a [u8],
    size: usize,
}

fn main(rt: HostRuntime) -> io::Result<()> {
    let mut input = [0u8; INPUT];
    let n = stream::fill(&mut rt.stdin(), &mut input);
    run(&rt, &input[..n])
}

fn run(rt: &impl Print, input: &[u8]) -> io::Result<()> {
    let mut rest = input;
    let mut cases: u64 = 0;
    // Each program of cases has this loop: one for all would ask something of the closure that it calls.
    while let Some((case, behind)) = case_of(rest) {
        judge(rt, case)?;
        rest = behind;
        cases += 1;
    }
    if rest.is_empty() {
        println!(rt; "{cases} cases")
    } else {
        println!(rt; "malformed case at {}", input.len() - rest.len())
    }
}

// The case that `rest` begins with, and what stands behind it. None where it is malformed.
fn case_of(rest: &[u8]) -> Option<(Case<'_>, &[u8])>
    ensures { IfSome result (λ p. (p.0.size ≤ 65536) × (length p.1.now < length rest.now)) }
{
    let (&[tag, name], rest) = rest.split_first_chunk::<2>()?;
    let kind = Kind::try_from(tag).ok()?;
    let (name, rest) = rest.split_at_checked(usize::from(name))?;
    let (size, rest) = rest.split_first_chunk::<4>()?;
    let (length, rest) = rest.split_first_chunk::<4>()?;
    let size = reads::four(size) as usize;
    let (unit, rest) = rest.split_at_checked(reads::four(length) as usize)?;
    // Nothing repeated fills no file but the empty one.
    if ROOM < size || (unit.is_empty() && size != 0) {
        return None;
    }
    Some((
        Case {
            kind,
            name,
            unit,
            size,
        },
        rest,
    ))
}

fn judge(rt: &impl Print, case: Case<'_>) -> io::Result<()>
    requires { case.size ≤ 65536 }
{
    let mut room = [0u8; ROOM];
    let file = &mut room[..case.size];
    repeat(case.unit, file);
    rt.write_all(case.name)?;
    match case.kind {
        Kind::Table => {
            let loaded = reader::read(file);
            let number = answers::number(loaded.answer);
            print!(rt; ": answer {number} at {}", loaded.place)?;
            if number == 0 {
                counts(rt, loaded.table)?;
            }
        }
        Kind::Schedule => {
            let schedule = schedule::read(file);
            let number = answers::number(schedule.answer);
            print!(rt; ": answer {number} at {}", schedule.place)?;
            if number == 0 {
                print!(rt; " deliveries {}", schedule.count)?;
            }
        }
    }
    println!(rt; "")
}

// Fills the file with the unit, over and over.
fn repeat(unit: &[u8], file: &mut [u8]) {
    for (to, from) in file.iter_mut().zip(unit.iter().cycle()) {
        *to = *from;
    }
}

fn counts(rt: &impl Print, table: Table) -> io::Result<()> {
    let tasks = table.tasks;
    let gates = table.gates;
    let transitions = table.moves.iter().filter(|to| **to != 0).count();
    let vectors = vectors(&table.vectors);
    print!(rt; " tasks {tasks} gates {gates} transitions {transitions} vectors {vectors}")
}

// The vectors of all gates together.
fn vectors(counts: &[u8]) -> usize {
    counts.iter().fold(
        0,
        |sum: usize, count| sum.saturating_add(usize::from(*count)),
    )
}
