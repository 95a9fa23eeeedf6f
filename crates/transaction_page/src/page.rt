// A page that is written, line by line.
use cell_state::OutPoint;
use std::alloc::Global;
use std::fmt::Write;

/// A page that is written. What wants memory first is kept in it, and asked once, at the end.
#[derive(Drop)]
pub struct Page {
    alloc: Global,
    text: String,
    is_short: bool,
}

impl Page {
    /// A page without a line.
    pub fn new(alloc: Global) -> Page {
        Page {
            alloc,
            text: String::new(alloc),
            is_short: false,
        }
    }

    /// Its text, unless memory was wanted.
    pub fn into_text(self) -> Option<String> {
        let Page { text, is_short, .. } = self;
        if is_short {
            drop(text);
            return None;
        }
        Some(text)
    }

    /// Notes that memory was wanted.
    pub fn run_short(&mut self) {
        self.is_short = true;
    }

    /// Appends a text.
    pub fn add(&mut self, text: &str) {
        if self.text.push_str(text).is_err() {
            self.is_short = true;
        }
    }

    /// Appends a number in decimal.
    pub fn number(&mut self, number: u64) {
        if write!(self.text, "{number}").is_err() {
            self.is_short = true;
        }
    }

    /// Appends a count in decimal.
    pub fn count(&mut self, count: usize) {
        self.number(count as u64);
    }

    /// Appends a number in decimal.
    pub fn big(&mut self, number: u128) {
        if write!(self.text, "{number}").is_err() {
            self.is_short = true;
        }
    }

    /// Appends a number in decimal, with its sign where it is below 0.
    pub fn signed(&mut self, number: i8) {
        if write!(self.text, "{number}").is_err() {
            self.is_short = true;
        }
    }

    /// Appends a number as it stands in JSON.
    pub fn hex(&mut self, number: u64) {
        if write!(self.text, "{number:#x}").is_err() {
            self.is_short = true;
        }
    }

    /// Appends bytes: `0x` and two lower-case hex digits a byte.
    pub fn bytes(&mut self, bytes: &[u8]) {
        match hex::encode(self.alloc, bytes) {
            Ok(digits) => {
                self.add("0x");
                self.add(&digits);
            }
            Err(_) => self.is_short = true,
        }
    }

    /// Appends a hash as bytes.
    pub fn hash(&mut self, hash: &[u8; 32]) {
        self.bytes(hash);
    }

    /// Appends an out-point as `cell` of `ckbdev` takes it: the hash, and the index.
    pub fn out_point(&mut self, o: &OutPoint) {
        self.bytes(&o.tx_hash);
        self.add(" ");
        self.number(u64::from(o.index));
    }
}
