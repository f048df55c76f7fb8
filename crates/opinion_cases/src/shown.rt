// All that can be seen of a line, typed on a sheet.
use channels::{Channel, Message, Request};
use state::{Deal, Gate, Mode, State, Task};
use std::io;
use text::Sheet;

pub fn write(rt: &impl Print, sheet: &Sheet) -> io::Result<()> {
    let bytes = &*sheet.bytes;
    let n = text::within(bytes, sheet.at);
    rt.write_all(&bytes[..n])
}

// A number below 16 in hexadecimal.
pub fn digit(sheet: &mut Sheet, n: u8) {
    if n < 10 {
        sheet.put_byte(b'0' + n);
    } else {
        sheet.put_byte(b'a' - 10 + n % 16);
    }
}

pub fn log(sheet: &mut Sheet, log: &[u8]) {
    sheet.put_word(b"log ");
    for &byte in log {
        digit(sheet, byte / 16);
        digit(sheet, byte % 16);
    }
    sheet.put_byte(b'\n');
}

// The tasks and the gates that there are.
pub fn parties(sheet: &mut Sheet, tasks: u8, gates: u8, s: &State) {
    for (t, p) in s.tasks.iter().enumerate().take(tasks as usize) {
        task(sheet, t, p);
    }
    for (g, k) in s.gates.iter().enumerate().take(gates as usize) {
        gate(sheet, g, k);
    }
}

fn task(sheet: &mut Sheet, number: usize, p: &Task) {
    sheet.put_field(b"task ", number);
    sheet.put_field(b" state ", p.state as usize);
    held(sheet, p.mode);
    if p.count > 0 {
        sheet.put_word(b" waiting");
    }
    for waits in p.waiting.iter().take(p.count as usize) {
        request(sheet, *waits);
    }
    sheet.put_byte(b'\n');
}

fn held(sheet: &mut Sheet, mode: Mode) {
    match mode {
        Mode::Free => sheet.put_word(b" free"),
        Mode::Held(request) => {
            sheet.put_field(b" held ", request.gate.0 as usize);
            sheet.put_field(b" ", request.vector as usize);
        }
    }
}

fn request(sheet: &mut Sheet, request: Request) {
    sheet.put_field(b" ", request.gate.0 as usize);
    sheet.put_field(b".", request.vector as usize);
}

fn gate(sheet: &mut Sheet, number: usize, k: &Gate) {
    sheet.put_field(b"gate ", number);
    sheet.put_field(b" offers ", k.offers as usize);
    match k.deal {
        Deal::Idle => sheet.put_word(b" idle\n"),
        Deal::Dealing(v) => {
            sheet.put_field(b" dealing ", v as usize);
            sheet.put_byte(b'\n');
        }
    }
}

// The channels that hold messages, by sender and then by receiver.
pub fn channels(sheet: &mut Sheet, s: &State) {
    for (t, p) in s.tasks.iter().enumerate() {
        sent(sheet, t, 0, &p.across);
        sent(sheet, t, 16, &p.up);
    }
    for (g, k) in s.gates.iter().enumerate() {
        sent(sheet, 16 + g, 0, &k.down);
    }
}

// A sender's channels to the endpoints from one on.
fn sent<C: Channel>(sheet: &mut Sheet, from: usize, to: u8, list: &[C; 16]) {
    for (i, channel) in list.iter().enumerate() {
        if channel.count() > 0 {
            pair(sheet, from, usize::from(to) + i);
            messages(sheet, *channel);
            sheet.put_byte(b'\n');
        }
    }
}

fn messages<C: Channel>(sheet: &mut Sheet, channel: C) {
    let mut rest = channel;
    for _ in 0..channel.count() {
        message(sheet, rest.first());
        rest = rest.popped();
    }
}

fn pair(sheet: &mut Sheet, from: usize, to: usize) {
    sheet.put_field(b"channel ", from);
    sheet.put_field(b"-", to);
}

fn message(sheet: &mut Sheet, message: Message) {
    match message {
        Message::Ready => sheet.put_word(b" ready"),
        Message::Lock(request) => {
            sheet.put_field(b" lock ", request.gate.0 as usize);
            sheet.put_field(b".", request.vector as usize);
        }
        Message::Commit(gate) => sheet.put_field(b" commit ", gate.0 as usize),
        Message::Abort(gate) => sheet.put_field(b" abort ", gate.0 as usize),
    }
}
