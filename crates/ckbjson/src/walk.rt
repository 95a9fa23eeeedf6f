// The first thing that is wrong with a text, found by going along it.
use crate::faults::{fault_of, push_keys, text_fault};
use crate::wanted::{Listed, Object, Wanted, object_of};
use crate::words::Kind;
use json::{Reader, Scratch, Token};
use std::alloc::{AllocError, Global};

/// The most characters of an unknown key that are shown.
const SHOWN: usize = 60;

/// The bit of the key `extra_hash`, which stands in a header for `uncles_hash`, and of that.
const EXTRA: u64 = 1 << 11;

const UNCLES: u64 = 1 << 9;

/// What the walk is in.
#[derive(Clone, Copy)]
enum Place {
    /// An object, with a bit for each key of its table that was read, and the last of them.
    Object {
        object: Object,
        seen: u64,
        key: &'static str,
    },
    /// A list, with the number of its items that have begun.
    List {
        listed: Listed,
        begun: usize,
    },
    /// An object or a list that is not looked at.
    Passed {
        is_object: bool,
    },
}

/// What came last in that.
#[derive(Clone, Copy, PartialEq, Eq)]
enum Last {
    Opened,
    Key,
    Value,
}

/// A walk along a text.
#[derive(Drop)]
struct Walk<'a> {
    alloc: Global,
    text: &'a [u8],
    /// Where in the text the token begins that is looked at.
    at: usize,
    places: Vec<Place>,
    last: Last,
    /// What is wanted where a value begins that is no item of a list.
    wanted: Wanted,
}

/// The number of a line, from 1.
fn line_of(text: &[u8], at: usize) -> usize {
    let mut line: usize = 1;
    for byte in &text[..at.min(text.len())] {
        if *byte == b'\n' {
            line = line.saturating_add(1);
        }
    }
    line
}

/// Whether a comma is the last that stands before a place, but for spaces.
fn follows_comma(text: &[u8], at: usize) -> bool {
    for byte in text[..at.min(text.len())].iter().rev() {
        match byte {
            b' ' | b'\t' | b'\n' | b'\r' => {}
            _ => return *byte == b',',
        }
    }
    false
}

/// Adds a key to a path.
fn push_key(path: &mut String, key: &str) -> Result<(), AllocError> {
    if !path.is_empty() {
        path.push_str(".")?;
    }
    for (i, c) in key.chars().enumerate() {
        if i >= SHOWN {
            return path.push_str("..");
        }
        path.push(if c.is_control() { '?' } else { c })?;
    }
    Ok(())
}

/// The path to what was begun last in these places.
fn path_of(alloc: Global, places: &[Place]) -> Result<String, AllocError> {
    let mut path = String::new(alloc);
    for place in places {
        match place {
            Place::Object { key, .. } => push_key(&mut path, key)?,
            Place::List { begun, .. } => {
                let item = begun.saturating_sub(1).to_string(alloc)?;
                path.push_str("[")?;
                path.push_str(&item)?;
                path.push_str("]")?;
            }
            Place::Passed { .. } => {}
        }
    }
    Ok(path)
}

/// The bit of a key of an object, and what is wanted there: in the table, or beside it.
fn find_key(object: Object, key: &str) -> Option<(u64, &'static str, Wanted)> {
    for (i, (name, wanted)) in object.keys().iter().enumerate() {
        if *name == key {
            return Some((1 << (i % 64), *name, *wanted));
        }
    }
    if object.may_have_hash() && key == "hash" {
        return Some((0, "hash", Wanted::Anything));
    }
    match object {
        Object::Header if key == "extra_hash" => Some((EXTRA, "extra_hash", Wanted::Array(32))),
        _ => None,
    }
}

/// The first key of an object's table that was not read.
fn missing_key(object: Object, seen: u64) -> Option<&'static str> {
    for (i, (name, _)) in object.keys().iter().enumerate() {
        let bit: u64 = 1 << (i % 64);
        let is_other = match object {
            Object::Header => bit == UNCLES && seen & EXTRA != 0,
            _ => false,
        };
        if seen & bit == 0 && !is_other {
            return Some(*name);
        }
    }
    None
}

impl<'a> Walk<'a> {
    fn of(alloc: Global, kind: Kind, text: &'a [u8]) -> Walk<'a> {
        Walk {
            alloc,
            text,
            at: 0,
            places: Vec::new(alloc),
            last: Last::Opened,
            wanted: Wanted::Object(object_of(kind)),
        }
    }

    /// The line, and what is wrong there.
    fn message(&self, path: &str, wrong: &str) -> Result<String, AllocError> {
        let line = line_of(self.text, self.at);
        if path.is_empty() {
            format!(in self.alloc; "line {line}: {wrong}")
        } else {
            format!(in self.alloc; "line {line}: {path}: {wrong}")
        }
    }

    /// What JSON wants in this place.
    fn wanted_here(&self) -> &'static str {
        let is_object = match self.places.last() {
            None => return "a value",
            Some(Place::Object { .. }) => true,
            Some(Place::List { .. }) => false,
            Some(Place::Passed { is_object }) => *is_object,
        };
        match (self.last, is_object, follows_comma(self.text, self.at)) {
            (Last::Key, _, _) => "a value",
            (Last::Opened, true, _) => "a key in quotes or }",
            (Last::Opened, false, _) => "a value or ]",
            (Last::Value, true, true) => "a key in quotes",
            (Last::Value, true, false) => "a comma or }",
            (Last::Value, false, true) => "a value",
            (Last::Value, false, false) => "a comma or ]",
        }
    }

    /// Whether the value that the text is has ended.
    fn is_past_the_value(&self) -> bool {
        self.places.is_empty() && self.last == Last::Value
    }

    /// A text that is no JSON from here on, where JSON wants another token.
    fn no_json(&self) -> Result<String, AllocError> {
        if self.is_past_the_value() {
            return self.message("", "no JSON: nothing may follow the value");
        }
        let wanted = self.wanted_here();
        let wrong = if self.at < self.text.len() {
            format!(in self.alloc; "no JSON: {wanted} is wanted")?
        } else {
            format!(in self.alloc; "no JSON: the text ends where {wanted} is wanted")?
        };
        self.message("", &wrong)
    }

    /// Whether a text in quotes may begin here, and does.
    fn begins_text(&self) -> bool {
        let may = match self.last {
            Last::Opened | Last::Key => true,
            Last::Value => !self.places.is_empty() && follows_comma(self.text, self.at),
        };
        may && self.text.get(self.at).copied() == Some(b'"')
    }

    /// What is no token of JSON.
    fn no_token(&self) -> Result<String, AllocError> {
        if self.begins_text() {
            return self.message(
                "",
                "no JSON: a text ends with a quote, and has no controls and no escapes but those of JSON",
            );
        }
        self.no_json()
    }

    /// Puts a place in the place of the innermost.
    fn change_innermost(&mut self, place: Place) {
        if let Some(innermost) = self.places.last_mut() {
            *innermost = place;
        }
    }

    /// What is wanted where a value begins, where one may.
    fn begin(&mut self) -> Option<Wanted> {
        let last = self.last;
        self.last = Last::Value;
        match self.places.last().copied() {
            None if last == Last::Opened => Some(self.wanted),
            None => None,
            Some(Place::Object { .. }) if last == Last::Key => Some(self.wanted),
            Some(Place::Object { .. }) => None,
            Some(Place::List { listed, begun }) => {
                let begun = begun.saturating_add(1);
                self.change_innermost(Place::List { listed, begun });
                Some(listed.item())
            }
            Some(Place::Passed { is_object: true }) if last != Last::Key => None,
            Some(Place::Passed { .. }) => Some(Wanted::Anything),
        }
    }

    /// Goes into an object or a list.
    fn open(&mut self, place: Place) -> Result<Option<String>, AllocError> {
        self.places.push(place)?;
        self.last = Last::Opened;
        Ok(None)
    }

    /// What is wanted in place of what stands here.
    fn other(&self, wanted: Wanted) -> Result<Option<String>, AllocError> {
        let path = path_of(self.alloc, &self.places)?;
        let wrong = fault_of(self.alloc, wanted)?;
        Ok(Some(self.message(&path, &wrong)?))
    }

    fn begin_object(&mut self, wanted: Wanted) -> Result<Option<String>, AllocError> {
        let object = match wanted {
            Wanted::Object(object) => object,
            Wanted::OptionalScript => Object::Script,
            Wanted::Anything => return self.open(Place::Passed { is_object: true }),
            _ => return self.other(wanted),
        };
        self.open(Place::Object {
            object,
            seen: 0,
            key: "",
        })
    }

    fn begin_list(&mut self, wanted: Wanted) -> Result<Option<String>, AllocError> {
        match wanted {
            Wanted::List(listed) => self.open(Place::List { listed, begun: 0 }),
            Wanted::Anything => self.open(Place::Passed { is_object: false }),
            _ => self.other(wanted),
        }
    }

    fn text(&self, wanted: Wanted, text: &str) -> Result<Option<String>, AllocError> {
        match text_fault(self.alloc, wanted, text.as_bytes())? {
            None => Ok(None),
            Some(wrong) => {
                let path = path_of(self.alloc, &self.places)?;
                Ok(Some(self.message(&path, &wrong)?))
            }
        }
    }

    /// A value begins.
    fn value(&mut self, token: Token<'_>) -> Result<Option<String>, AllocError> {
        let last = self.last;
        let Some(wanted) = self.begin() else {
            self.last = last;
            return Ok(Some(self.misplaced(token)?));
        };
        match (token, wanted) {
            (Token::BeginObject, _) => self.begin_object(wanted),
            (Token::BeginArray, _) => self.begin_list(wanted),
            (Token::String(text), _) => self.text(wanted, text),
            (Token::Null, Wanted::OptionalScript) => Ok(None),
            (_, Wanted::Anything) => Ok(None),
            _ => self.other(wanted),
        }
    }

    /// A value where none may begin: a key without its colon, or something after the end.
    fn misplaced(&self, token: Token<'_>) -> Result<String, AllocError> {
        match token {
            Token::String(_) if !self.places.is_empty() => {
                self.message("", "no JSON: a colon is wanted after the key")
            }
            _ => self.no_json(),
        }
    }

    /// A text with a colon after it where no key may stand.
    fn misplaced_key(&self) -> Result<String, AllocError> {
        if self.is_past_the_value() {
            return self.no_json();
        }
        self.message("", "no JSON: a colon stands after a key alone")
    }

    /// A key that stands in an object.
    fn key(&mut self, key: &str) -> Result<Option<String>, AllocError> {
        let last = self.last;
        self.last = Last::Key;
        match self.places.last() {
            Some(Place::Passed { is_object: true }) if last != Last::Key => {
                self.wanted = Wanted::Anything;
                Ok(None)
            }
            Some(Place::Object { object, seen, .. }) if last != Last::Key => {
                let (object, seen) = (*object, *seen);
                self.known_key(object, seen, key)
            }
            _ => {
                self.last = last;
                Ok(Some(self.misplaced_key()?))
            }
        }
    }

    fn known_key(
        &mut self,
        object: Object,
        seen: u64,
        key: &str,
    ) -> Result<Option<String>, AllocError> {
        let Some((bit, name, wanted)) = find_key(object, key) else {
            let mut wrong = String::from_str(self.alloc, "there is no such key; the keys are ")?;
            push_keys(&mut wrong, object)?;
            return self.of_key(key, &wrong);
        };
        let seen = seen | bit;
        if matches!(object, Object::Header) && seen & EXTRA != 0 && seen & UNCLES != 0 {
            return self.of_key(
                key,
                "either uncles_hash or extra_hash is wanted, and not both",
            );
        }
        self.change_innermost(Place::Object {
            object,
            seen,
            key: name,
        });
        self.wanted = wanted;
        Ok(None)
    }

    /// What is wrong with a key of the object that the walk is in.
    fn of_key(&self, key: &str, wrong: &str) -> Result<Option<String>, AllocError> {
        let outer = self.places.len().saturating_sub(1);
        let mut path = path_of(self.alloc, &self.places[..outer])?;
        push_key(&mut path, key)?;
        Ok(Some(self.message(&path, wrong)?))
    }

    /// The end of an object.
    fn end_object(&mut self) -> Result<Option<String>, AllocError> {
        match self.places.last() {
            Some(Place::Object { object, seen, .. }) if self.last != Last::Key => {
                if let Some(key) = missing_key(*object, *seen) {
                    return self.of_key(key, "this key is missing");
                }
            }
            Some(Place::Passed { is_object: true }) if self.last != Last::Key => {}
            _ => return Ok(Some(self.no_json()?)),
        }
        self.places.pop();
        self.last = Last::Value;
        Ok(None)
    }

    /// The end of a list.
    fn end_list(&mut self) -> Result<Option<String>, AllocError> {
        match self.places.last() {
            Some(Place::List { .. } | Place::Passed { is_object: false }) => {}
            _ => return Ok(Some(self.no_json()?)),
        }
        self.places.pop();
        self.last = Last::Value;
        Ok(None)
    }

    /// Goes over a token: what is wrong there, if anything.
    fn step(&mut self, token: Token<'_>) -> Result<Option<String>, AllocError> {
        match token {
            Token::Bad => Ok(Some(self.no_token()?)),
            Token::Key(key) => self.key(key),
            Token::EndObject => self.end_object(),
            Token::EndArray => self.end_list(),
            _ => self.value(token),
        }
    }

    /// What is wrong where no token follows. Where nothing is, the text is refused for what is not looked at.
    fn end(&self) -> Result<String, AllocError> {
        if self.is_past_the_value() {
            self.message(
                "",
                "a value of a key hash nests more than 127 deep, or has a number above those of JSON",
            )
        } else {
            self.no_json()
        }
    }
}

/// The first thing that is wrong with a text that is read as no item of this kind: its line, its path, and what is wanted.
pub(crate) fn first_fault(alloc: Global, kind: Kind, bytes: &[u8]) -> Result<String, AllocError> {
    let mut walk = Walk::of(alloc, kind, bytes);
    let text = match std::str::from_utf8(bytes) {
        Ok(text) => text,
        Err(error) => {
            walk.at = error.valid_up_to();
            return walk.message("", "no JSON: the text is not UTF-8");
        }
    };
    let mut scratch = Scratch::new(alloc);
    let mut reader = Reader::new(text, &mut scratch)?;
    for _ in 0..u64::MAX {
        walk.at = reader.offset();
        let Some(token) = reader.next() else {
            break;
        };
        if let Some(message) = walk.step(token)? {
            return Ok(message);
        }
    }
    walk.end()
}
