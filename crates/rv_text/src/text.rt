// A short text, which takes no memory.
ghost use Rattle.std.specs.Prelude.{◌≡◌, ◌+◌, ◌<◌, ◌≤◌, [], ◌∷◌, ◌++◌, length};
ghost use Rattle.std.specs.Fmt.{decimal, signed_decimal};
ghost use Rattle.machine_defs.specs.Text.{register};

use std::marker::Model;

const CAPACITY: usize = 128;

/// A text of at most 128 bytes.
#[derive(Drop)]
pub(crate) struct Text {
    bytes: [u8; 128],
    end: usize,
}

impl Model for Text {
    ghost use Rattle.std.specs.Prelude.{ℕ, List, ◌≤◌, take};

    ghost Value = { List ℕ };

    ghost view = { λ text. take text.end text.bytes };

    ghost invariant = { λ text. text.end ≤ 128 };
}

impl Text {
    pub(crate) fn new() -> Text
        ensures { result ≡ [] }
    {
        Text {
            bytes: [0; CAPACITY],
            end: 0,
        }
    }

    pub(crate) fn as_slice(&self) -> &[u8]
        ensures { result.now ≡ self.now }
    {
        &self.bytes[..self.end]
    }

    pub(crate) fn push(&mut self, byte: u8)
        requires { length self.old < 128 }
        ensures { self.new ≡ self.old ++ (byte ∷ []) }
    {
        self.bytes[self.end] = byte;
        self.end += 1;
    }

    pub(crate) fn append(&mut self, bytes: &[u8])
        requires { length self.old + length bytes.now ≤ 128 }
        ensures { self.new ≡ self.old ++ bytes.now }
    {
        for byte in bytes {
            self.push(*byte);
        }
    }

    /// Appends a number in decimal, which takes at most 20 digits.
    pub(crate) fn append_decimal(&mut self, number: u64)
        requires { length self.old + length (decimal number) ≤ 128 }
        ensures { self.new ≡ self.old ++ decimal number }
    {
        if number >= 10 {
            self.append_decimal(number / 10);
        }
        self.push(b'0' + (number % 10) as u8);
    }

    pub(crate) fn append_number(&mut self, number: u64)
        requires { length self.old + 20 ≤ 128 }
        ensures text { self.new ≡ self.old ++ decimal number }
        ensures room { length self.new ≤ length self.old + 20 }
    {
        self.append_decimal(number);
    }

    pub(crate) fn append_signed(&mut self, number: i64)
        requires { length self.old + 21 ≤ 128 }
        ensures text { self.new ≡ self.old ++ signed_decimal number }
        ensures room { length self.new ≤ length self.old + 21 }
    {
        if number < 0 {
            self.push(b'-');
        }
        self.append_number(number.unsigned_abs());
    }

    pub(crate) fn append_register(&mut self, number: u8)
        requires { length self.old + 21 ≤ 128 }
        ensures text { self.new ≡ self.old ++ register number }
        ensures room { length self.new ≤ length self.old + 21 }
    {
        self.push(b'x');
        self.append_number(u64::from(number));
    }
}
