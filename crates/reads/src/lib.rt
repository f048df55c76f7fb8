// Reads of lent lists that need no range: past the end stands a filler.
#![tactic(auto)]

ghost use Rattle.std.specs.Prelude.{◌≡◌, get_or};
ghost use Rattle.reads.specs.Numbers.{four_of};

pub fn at<T: Copy + Drop>(list: &[T], i: usize, filler: T) -> T
    ensures { result ≡ get_or list.now i filler }
{
    list.get(i).copied().unwrap_or(filler)
}

// The number in the first four bytes, the lowest first; past the end stands 0. The programs of the tests
// and the measurement read such numbers by it.
pub fn four(bytes: &[u8]) -> u32
    ensures { result ≡ four_of bytes.now }
{
    u32::from_le_bytes([
        at(bytes, 0, 0),
        at(bytes, 1, 0),
        at(bytes, 2, 0),
        at(bytes, 3, 0),
    ])
}
