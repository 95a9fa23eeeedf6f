// A row's columns, one after the other.

use std::alloc::Global;

/// What is left of a row.
#[derive(Drop)]
pub struct Row<'a> {
    rest: &'a str,
}

impl<'a> Row<'a> {
    pub fn new(line: &'a str) -> Row<'a> {
        Row { rest: line }
    }

    /// The next column; it is empty where none is left.
    pub fn word(&mut self) -> &'a str {
        let (word, rest) = self.rest.split_once('\t').unwrap_or((self.rest, ""));
        self.rest = rest;
        word
    }

    /// All columns that are left, in one piece.
    pub fn rest(&self) -> &'a str {
        self.rest
    }

    /// A number in decimal, or in hex after `0x`.
    pub fn wide(&mut self) -> Option<u128> {
        let word = self.word();
        match word.strip_prefix("0x") {
            Some(digits) => u128::from_str_radix(digits, 16).ok(),
            None => u128::from_str_radix(word, 10).ok(),
        }
    }

    /// The same, of 64 bits at most.
    pub fn number(&mut self) -> Option<u64> {
        u64::try_from(self.wide()?).ok()
    }

    /// The same, of 32 bits at most.
    pub fn short(&mut self) -> Option<u32> {
        u32::try_from(self.wide()?).ok()
    }

    /// A number in decimal that may have a sign.
    pub fn signed(&mut self) -> Option<i128> {
        i128::from_str_radix(self.word(), 10).ok()
    }

    /// A number in hex, with nothing before it.
    pub fn digits(&mut self) -> Option<u64> {
        u64::from_str_radix(self.word(), 16).ok()
    }

    /// Whether a column is the first word; it must be that or the other.
    pub fn is(&mut self, yes: &str, no: &str) -> Option<bool> {
        let word = self.word();
        if word == yes {
            Some(true)
        } else if word == no {
            Some(false)
        } else {
            None
        }
    }

    /// Bytes in hex, `-` for none.
    pub fn bytes(&mut self, alloc: Global) -> Option<Vec<u8>> {
        match self.word() {
            "-" => Some(Vec::new(alloc)),
            digits => hex::decode(alloc, digits).ok(),
        }
    }

    /// Numbers in decimal with a comma between two, `-` for none.
    pub fn numbers(&mut self, alloc: Global) -> Option<Vec<u64>> {
        let mut numbers = Vec::new(alloc);
        let column = self.word();
        if column == "-" {
            return Some(numbers);
        }
        for digits in column.split(',') {
            numbers.push(digits.parse().ok()?).ok()?;
        }
        Some(numbers)
    }
}
