// Makes a delivery on each line of standard input, and prints its answer's number and whether state and log
// are what they were. A case has a head of eight bytes: the length of its name, that of a table file (two
// bytes), how many deliveries and how many edits, the length of the log, and the two ends of its delivery.
// Then come the name, the file, the deliveries of two bytes each and the edits of 16. The line starts fresh by
// that table and has had those deliveries; then the edits set parts of its state and table by hand.
// tools/make_state_cases.py writes the cases and the lines expected.
#![tactic(auto)]

mod edits;

ghost use Rattle.std.specs.Prelude.{◌<◌, IfSome, length};

use state::State;
use std::io;
use table::Table;

const INPUT: usize = 65536;

// The longest log.
const LOG: usize = 8;

// What a byte of the log is before the delivery, and no entry has.
const UNWRITTEN: u8 = 255;

#[derive(Clone, Copy, Debug)]
struct Case<'a> {
    name: &'a [u8],
    file: &'a [u8],
    deliveries: &'a [[u8; 2]],
    edits: &'a [[u8; edits::SIZE]],
    log: usize,
    from: u8,
    to: u8,
}

fn main(rt: HostRuntime) -> io::Result<()> {
    let mut input = [0u8; INPUT];
    let n = stream::fill(&mut rt.stdin(), &mut input);
    let mut rest = &input[..n];
    // Each program of cases has this loop: one for all would ask something of the closure that it calls.
    while let Some((case, behind)) = case_of(rest) {
        judge(&rt, case)?;
        rest = behind;
    }
    Ok(())
}

// The case that `rest` begins with, and what stands behind it. None where it is cut off.
fn case_of(rest: &[u8]) -> Option<(Case<'_>, &[u8])>
    ensures { IfSome result (λ p. length p.1.now < length rest.now) }
{
    let (&[name, low, high, deliveries, by_hand, log, from, to], rest) = rest.split_first_chunk::<
        8,
    >()?;
    let (name, rest) = rest.split_at_checked(usize::from(name))?;
    let (file, rest) = rest.split_at_checked(usize::from(u16::from_le_bytes([low, high])))?;
    let (deliveries, rest) = rest.split_at_checked(usize::from(deliveries) * 2)?;
    let (by_hand, rest) = rest.split_at_checked(usize::from(by_hand) * edits::SIZE)?;
    let (deliveries, _) = deliveries.as_chunks::<2>();
    let (edits, _) = by_hand.as_chunks::<{ edits::SIZE }>();
    let case = Case {
        name,
        file,
        deliveries,
        edits,
        log: usize::from(log),
        from,
        to,
    };
    Some((case, rest))
}

// Builds the line, makes the delivery and prints what came of it.
fn judge(rt: &impl Print, case: Case<'_>) -> io::Result<()> {
    let loaded = reader::read(case.file);
    let built = after(loaded.table, case.deliveries);
    let (table, s) = edits::edited(loaded.table, built, case.edits);
    let mut log = [UNWRITTEN; LOG];
    let size = case.log.min(LOG);
    let delivered = delivery::deliver(table, s, &mut log[..size], case.from, case.to);
    let change = if delivered.state == s && log == [UNWRITTEN; LOG] {
        "unchanged"
    } else {
        "changed"
    };
    rt.write_all(case.name)?;
    println!(rt; ": answer {} {change}", answers::number(delivered.answer))
}

// Fresh, then each of these deliveries.
fn after(table: Table, deliveries: &[[u8; 2]]) -> State {
    let mut s = fresh::fresh(table).state;
    for [from, to] in deliveries {
        let mut log = [UNWRITTEN; LOG];
        s = delivery::deliver(table, s, &mut log, *from, *to).state;
    }
    s
}
