// What the programs read comes through here: a stream read into a lent buffer.
#![tactic(auto)]

ghost use Rattle.std.specs.Prelude.{◌≡◌, ◌≤◌, length, take};

use std::io::Read;

// Reads until the buffer is full, the stream ends or a read fails, and gives how many bytes it put there.
// The second half of the promise is what a caller's slice up to there is proved by.
pub fn fill(stream: &mut impl Read, buffer: &mut [u8]) -> usize
    ensures { (result ≤ length buffer.new) × (result ≡ length (take result buffer.new)) }
{
    let mut done = 0;
    // No `for`: how much a read gives is known only when it is made.
    while done < buffer.len() {
        match stream.read(&mut buffer[done..]) {
            Ok(0) | Err(_) => break,
            Ok(n) => done += n,
        }
    }
    done
}
