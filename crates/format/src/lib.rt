// The house format: records of a body length, a kind and a body, little-endian. A place is a file and
// an offset, two words as in the paper.
#![tactic(auto)]

ghost use Rattle.std.specs.Prelude.{◌≡◌, ◌-◌, length};
ghost use Rattle.format.specs.Format.{body_length_of, word_at, kind_at, size_at, head_fault};

use answers::{Answer, Refusal};

// Every kind has one body length: the table is read by each reader and writer of the format.
pub const BODY_LENGTHS: [u8; 6] = [0, 2, 3, 4, 3, 2];

// The body length of a kind; 0 for a kind that there is not.
pub fn body_length(kind: u16) -> u8
    ensures { result ≡ body_length_of kind }
{
    reads::at(&BODY_LENGTHS, kind.into(), 0)
}

// The two bytes at a place as one number.
pub fn word_at(file: &[u8], i: usize) -> u16
    ensures { result ≡ word_at file.now i }
{
    if i < file.len() {
        u16::from_le_bytes([reads::at(file, i, 0), reads::at(file, i + 1, 0)])
    } else {
        0
    }
}

// The kind that the head at a place states.
pub fn kind_at(file: &[u8], at: usize) -> u16
    ensures { result ≡ kind_at file.now at }
{
    if at < file.len() {
        word_at(file, at + 2)
    } else {
        0
    }
}

// How many bytes the record at a place takes by its kind, head and body.
pub fn size_at(file: &[u8], at: usize) -> usize
    ensures { result ≡ size_at file.now at }
{
    4 + usize::from(body_length(kind_at(file, at)))
}

// The first fault of the record at a place before its fields are looked at, where allowed says
// what the file thinks of its kind.
#[tactic(auto, unfolding(crate::specs::Format::head_fault))]
pub fn head_fault(file: &[u8], at: usize, allowed: Answer) -> Answer
    ensures { result ≡ head_fault file.now at allowed }
{
    let left = left_from(file, at);
    if left < 4 {
        return Err(Refusal::CutOff);
    }
    allowed?;
    let size = size_at(file, at);
    if 4 + usize::from(word_at(file, at)) != size {
        return Err(Refusal::BodyLength);
    }
    if left < size {
        return Err(Refusal::CutOff);
    }
    Ok(())
}

// How many bytes of the file stand from a place on.
fn left_from(file: &[u8], at: usize) -> usize
    ensures { result ≡ length file.now - at }
{
    file.len().saturating_sub(at)
}
