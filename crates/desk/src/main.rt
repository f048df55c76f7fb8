// Program desk: reads table.bin and sched.bin in the folder that it is run in, and prints what comes of
// them. A file that can't be opened counts as empty.
#![tactic(auto)]

ghost use Rattle.std.specs.Prelude.{◌≡◌, ◌≤◌, length, take};

use std::rt::Files;
use std::{fs, io};

const TABLE: usize = 40000;

// One byte more than a schedule may have.
const SCHEDULE: usize = 60001;

const LOG: usize = 20000;

// Room for all that is printed of a log of that length.
const TEXT: usize = 400200;

fn main(rt: HostRuntime) -> io::Result<()> {
    let mut table = [0u8; TABLE];
    let mut schedule = [0u8; SCHEDULE];
    let mut log = [0u8; LOG];
    let mut text = [0u8; TEXT];
    let m = load(&rt, "table.bin", &mut table);
    let n = load(&rt, "sched.bin", &mut schedule);
    let end = printed::print(&table[..m], &schedule[..n], &mut log, &mut text);
    let end = text::within(&text, end);
    rt.write_all(&text[..end])
}

// As much of a file as there is room for.
fn load(files: &impl Files, path: &str, buffer: &mut [u8]) -> usize
    ensures { (result ≤ length buffer.new) × (result ≡ length (take result buffer.new)) }
{
    match fs::open(files, path) {
        Ok(mut file) => stream::fill(&mut file, buffer),
        Err(_) => 0,
    }
}
