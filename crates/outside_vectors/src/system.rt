// A system that is a fake: its calls go by a list, and it notes them.
ghost use Rattle.std.specs.Prelude.{◌≤◌, length, IfOk};

use std::alloc::{Allocator, Global};
use std::cell::{Cell, RefCell};
use std::fmt::Display;
use std::io;
use std::io::{BufRead, ErrorKind, Input, Lines, Print, Read};

/// What the system does at one call.
#[derive(Clone, Copy)]
pub(crate) enum Turn {
    /// Moves as many bytes as fit, at most so many.
    Moves(usize),
    Errs(ErrorKind),
    /// A write does half of its piece and fails.
    Tears(ErrorKind),
}

/// A system whose files begin with the same bytes, which standard input gives too. After the list its calls succeed.
#[derive(Drop)]
pub(crate) struct System {
    turns: RefCell<Vec<Turn>>,
    calls: Cell<usize>,
    at: Cell<usize>,
    bytes: RefCell<Vec<u8>>,
    noted: RefCell<Vec<u8>>,
    shown: RefCell<Vec<u8>>,
}

fn taken_twice() -> io::Error {
    io::Error::other("taken twice")
}

/// Puts more of them at the end.
fn put<T: Copy>(held: &RefCell<Vec<T>>, more: &[T]) -> io::Result<()> {
    match held.try_borrow_mut() {
        Ok(mut held) => {
            held.extend_from_slice(more)?;
            Ok(())
        }
        Err(_) => Err(taken_twice()),
    }
}

/// Puts these in their place.
fn fill<T: Copy>(held: &RefCell<Vec<T>>, these: &[T]) -> io::Result<()> {
    match held.try_borrow_mut() {
        Ok(mut held) => {
            held.clear();
            held.extend_from_slice(these)?;
            Ok(())
        }
        Err(_) => Err(taken_twice()),
    }
}

fn is_filled(held: &RefCell<Vec<u8>>, bytes: &[u8]) -> bool {
    match held.try_borrow() {
        Ok(held) => held.as_slice() == bytes,
        Err(_) => false,
    }
}

impl System {
    pub(crate) fn new(alloc: Global) -> System {
        System {
            turns: RefCell::new(Vec::new(alloc)),
            calls: Cell::new(0),
            at: Cell::new(0),
            bytes: RefCell::new(Vec::new(alloc)),
            noted: RefCell::new(Vec::new(alloc)),
            shown: RefCell::new(Vec::new(alloc)),
        }
    }

    /// Begins anew, with these turns and bytes.
    pub(crate) fn begin(&self, turns: &[Turn], bytes: &[u8]) -> io::Result<()> {
        self.calls.set(0);
        self.at.set(0);
        fill(&self.turns, turns)?;
        fill(&self.bytes, bytes)?;
        fill(&self.noted, b"")?;
        fill(&self.shown, b"")
    }

    /// What the call does, and that it is made.
    pub(crate) fn begin_call(&self, call: &str) -> io::Result<Turn> {
        put(&self.noted, call.as_bytes())?;
        put(&self.noted, b",")?;
        let number = self.calls.get();
        self.calls.set(number.saturating_add(1));
        match self.turns.try_borrow() {
            Ok(turns) => Ok(
                turns
                    .get(number)
                    .copied()
                    .unwrap_or(Turn::Moves(usize::MAX)),
            ),
            Err(_) => Err(taken_twice()),
        }
    }

    /// How many of `most` bytes this call moves.
    pub(crate) fn next(&self, call: &str, most: usize) -> io::Result<usize> {
        match self.begin_call(call)? {
            Turn::Moves(n) => Ok(most.min(n)),
            Turn::Errs(kind) => Err(io::Error::from(kind)),
            Turn::Tears(kind) => Err(io::Error::from(kind)),
        }
    }

    /// What `holds` is asked of then: the bytes of the file that was changed last.
    pub(crate) fn show(&self, bytes: &[u8]) {
        let _ = fill(&self.shown, bytes);
    }

    /// The bytes that a file begins with.
    pub(crate) fn first_bytes(&self) -> io::Result<Vec<u8>> {
        match self.bytes.try_borrow() {
            Ok(bytes) => Ok(bytes.clone()?),
            Err(_) => Err(taken_twice()),
        }
    }

    /// Whether these calls were made since this was last asked.
    pub(crate) fn has_noted(&self, calls: &str) -> bool {
        let same = is_filled(&self.noted, calls.as_bytes());
        fill(&self.noted, b"").is_ok() && same
    }

    pub(crate) fn holds(&self, bytes: &[u8]) -> bool {
        is_filled(&self.shown, bytes)
    }

    /// Gives bytes from the place on.
    fn give(&self, buf: &mut [u8]) -> io::Result<usize>
        ensures { IfOk result (λ n. n ≤ length buf.new) }
    {
        let Ok(bytes) = self.bytes.try_borrow() else {
            return Err(taken_twice());
        };
        let at = self.at.get().min(bytes.len());
        let left = &bytes[at..];
        let most = left.len().min(buf.len());
        let n = self.next("read", most)?.min(most);
        buf[..n].copy_from_slice(&left[..n]);
        self.at.set(at + n);
        Ok(n)
    }
}

#[derive(Clone, Copy)]
pub(crate) struct Runtime<'a>(pub(crate) &'a System);

/// Standard input.
#[derive(Drop)]
pub(crate) struct StandardInput<'a>(&'a System);

impl Read for StandardInput<'_> {
    fn read(&mut self, buf: &mut [u8]) -> io::Result<usize> {
        self.0.give(buf)
    }
}

impl BufRead for StandardInput<'_> {
    fn fill_buf(&mut self) -> io::Result<&[u8]> {
        Err(io::Error::other("not asked for"))
    }

    fn consume(&mut self, amount: usize) {}
}

impl<'a> Input for Runtime<'a> {
    type Reader = StandardInput<'a>;

    fn read_line<A: Allocator + Clone>(&self, buf: &mut String<A>) -> io::Result<usize> {
        Err(io::Error::other("not asked for"))
    }

    fn lines<A: Allocator>(&self, alloc: A) -> Lines<StandardInput<'a>, A> {
        self.reader().lines(alloc)
    }

    fn reader(&self) -> StandardInput<'a> {
        StandardInput(self.0)
    }
}

impl Print for Runtime<'_> {
    fn print<D: Display + Drop>(&self, value: D) -> io::Result<()> {
        Err(io::Error::other("not asked for"))
    }

    fn println<D: Display + Drop>(&self, value: D) -> io::Result<()> {
        Err(io::Error::other("not asked for"))
    }

    fn write_all(&self, bytes: &[u8]) -> io::Result<()> {
        Err(io::Error::other("not asked for"))
    }

    fn write_some(&self, bytes: &[u8]) -> io::Result<usize> {
        let n = self.0.next("write", bytes.len())?.min(bytes.len());
        put(&self.0.shown, &bytes[..n])?;
        Ok(n)
    }
}
