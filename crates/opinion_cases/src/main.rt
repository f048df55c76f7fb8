// Runs the cases of standard input and prints what opinion/ expects of each. A case is the length of a table
// file, that of a schedule file and that of a log, of four bytes each, and the two files. First comes what
// program desk prints for the files. Where both are accepted the line is then run once more, over all deliveries,
// refused ones among them, with a log of that length, and all that can be seen of it is printed.
#![tactic(auto)]

mod shown;

ghost use Rattle.std.specs.Prelude.{◌≡◌, ◌≤◌, length, take};

use state::State;
use std::io;
use std::io::Read;
use table::Table;
use text::Sheet;

// The most cases that are run.
const CASES: usize = 1000000;

// The bytes of a case before its two files, and the longest file.
const HEAD: usize = 12;

const FILE: usize = 65536;

// The longest log of a second run, and what a byte of it is before.
const LOG: usize = 256;

const UNWRITTEN: u8 = 170;

// The longest text of a case.
const TEXT: usize = 65536;

// The log of program desk.
const DESK_LOG: usize = 20000;

fn main(rt: HostRuntime) -> io::Result<()> {
    let mut input = rt.stdin();
    for number in 0..CASES {
        if !one(&rt, &mut input, number)? {
            return line(&rt, b"", number, b" cases\n");
        }
    }
    Ok(())
}

// Runs the next case. False where there is none, or where a file or a log is longer than is taken.
fn one(rt: &impl Print, input: &mut impl Read, number: usize) -> io::Result<bool> {
    let mut head = [[0u8; 4]; 3];
    if stream::fill(input, head.as_flattened_mut()) < HEAD {
        return Ok(false);
    }
    let [table, schedule, room] = head.map(|bytes| reads::four(&bytes) as usize);
    if FILE < table || FILE < schedule || LOG < room {
        return Ok(false);
    }
    line(rt, b"case ", number, b"\n")?;
    both(rt, input, table, schedule, room)?;
    Ok(true)
}

// Reads files of these lengths, and runs them.
fn both(
    rt: &impl Print,
    input: &mut impl Read,
    table: usize,
    schedule: usize,
    room: usize,
) -> io::Result<()> {
    let mut file = [0u8; FILE];
    let mut list = [0u8; FILE];
    let m = filled(input, &mut file, table);
    let n = filled(input, &mut list, schedule);
    desk(rt, &file[..m], &list[..n])?;
    judge(rt, &file[..m], &list[..n], room)
}

// Reads so many bytes, as far as there are.
fn filled(input: &mut impl Read, buffer: &mut [u8], size: usize) -> usize
    ensures { (result ≤ length buffer.new) × (result ≡ length (take result buffer.new)) }
{
    let n = text::within(buffer, size);
    stream::fill(input, &mut buffer[..n])
}

// A line with a number in it.
fn line(rt: &impl Print, before: &[u8], number: usize, behind: &[u8]) -> io::Result<()> {
    let mut text = [0u8; 64];
    let mut sheet = Sheet {
        bytes: &mut text,
        at: 0,
    };
    sheet.put_field(before, number);
    sheet.put_word(behind);
    shown::write(rt, &sheet)
}

// What program desk prints.
fn desk(rt: &impl Print, file: &[u8], schedule: &[u8]) -> io::Result<()> {
    let mut log = [0u8; DESK_LOG];
    let mut text = [0u8; TEXT];
    let end = printed::print(file, schedule, &mut log, &mut text);
    let sheet = Sheet {
        bytes: &mut text,
        at: end,
    };
    shown::write(rt, &sheet)
}

// The second run, where both files are accepted.
fn judge(rt: &impl Print, file: &[u8], schedule: &[u8], room: usize) -> io::Result<()> {
    let loaded = reader::read(file);
    let listed = schedule::read(schedule);
    if loaded.answer.is_ok() && listed.answer.is_ok() {
        again(rt, loaded.table, schedule, listed.count, room)?;
    }
    Ok(())
}

fn again(
    rt: &impl Print,
    table: Table,
    schedule: &[u8],
    count: usize,
    room: usize,
) -> io::Result<()> {
    let mut log = [UNWRITTEN; LOG];
    let mut text = [0u8; TEXT];
    let n = text::within(&log, room);
    let mut sheet = Sheet {
        bytes: &mut text,
        at: 0,
    };
    seen(table, schedule, count, &mut log[..n], &mut sheet);
    shown::write(rt, &sheet)
}

// The run, and the line after it.
fn seen(table: Table, schedule: &[u8], count: usize, log: &mut [u8], sheet: &mut Sheet) {
    let started = fresh::fresh(table);
    sheet.put_word(b"answers ");
    let s = delivered(table, started.state, log, sheet, schedule, count);
    shown::log(sheet, log);
    shown::parties(sheet, table.tasks, table.gates, &s);
    shown::channels(sheet, &s);
}

// The line after all deliveries of a schedule, each on the state and log that the last one left. A
// digit is typed for each answer.
fn delivered(
    table: Table,
    started: State,
    log: &mut [u8],
    sheet: &mut Sheet,
    schedule: &[u8],
    count: usize,
) -> State {
    let mut s = started;
    for i in 0..count {
        let d = schedule::delivery_at(schedule, i);
        let r = delivery::deliver(table, s, log, d.from, d.to);
        shown::digit(sheet, answers::number(r.answer));
        s = r.state;
    }
    sheet.put_byte(b'\n');
    s
}
