// Text, typed on a sheet. A byte that finds no room is left out.
#![tactic(auto)]

ghost use Rattle.std.specs.Prelude.{[], ◌∷◌, ◌++◌, ◌≡◌, ◌≤◌, min, length, take};
ghost use Rattle.text.specs.Text.{decimal};
ghost use Rattle.text.specs.Sheets.{with_typed};

// A lent buffer, and the place where the next byte goes.
#[derive(Drop)]
pub struct Sheet<'a> {
    pub bytes: &'a mut [u8],
    pub at: usize,
}

impl Sheet<'_> {
    #[tactic(auto, unfolding(crate::specs::Sheets::with_typed, crate::specs::Text::typed))]
    pub fn put_byte(&mut self, byte: u8)
        ensures { self.new ≡ with_typed (byte ∷ []) self.old }
    {
        if self.at < self.bytes.len() {
            self.bytes[self.at] = byte;
            self.at += 1;
        }
    }

    #[tactic(auto, using(crate::proofs::Sheets::with_none, crate::proofs::Sheets::with_byte))]
    pub fn put_word(&mut self, word: &[u8])
        ensures { self.new ≡ with_typed word.now self.old }
    {
        for &byte in word {
            self.put_byte(byte);
        }
    }

    #[tactic(auto, using(crate::proofs::Sheets::with_after, crate::proofs::Decimal::decimal_digit, crate::proofs::Decimal::decimal_more))]
    pub fn put_decimal(&mut self, n: usize)
        ensures { self.new ≡ with_typed (decimal n) self.old }
    {
        if n >= 10 {
            self.put_decimal(n / 10);
        }
        self.put_byte(b'0' + (n % 10) as u8);
    }

    // A word, and a number behind it.
    #[tactic(auto, using(crate::proofs::Sheets::with_after))]
    pub fn put_field(&mut self, word: &[u8], n: usize)
        ensures { self.new ≡ with_typed (word.now ++ decimal n) self.old }
    {
        self.put_word(word);
        self.put_decimal(n);
    }
}

// A place in a text, or its end where it has no such place, so that it can be lent up to there.
pub fn within(text: &[u8], end: usize) -> usize
    ensures value { result ≡ min end (length text.now) }
    ensures upper_bound { (result ≤ length text.now) × (result ≡ length (take result text.now)) }
{
    end.min(text.len())
}
