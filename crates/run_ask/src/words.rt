// What a line asks.
ghost use Rattle.std.specs.Prelude.{◌≡◌, ◌∷◌, IfOk, Some, None, nat_lt, if◌then◌else◌};
ghost use Rattle.std.specs.List.{list_all};
ghost use Rattle.std.specs.Option.{option_map, option_and_then};
ghost use Rattle.std.specs.Str.{bytes_eq};
ghost use Rattle.report_defs.specs.Text.{hex_text};
ghost use Rattle.report_defs.specs.Words as grammar;
ghost use Rattle.ask_defs.specs.Asks as asks;
ghost use Rattle.ask_defs.specs.Asks.{words_of};
ghost use Rattle.ask_defs.specs.Answers as answers;
ghost use Rattle.run_ask.specs.Words.{words_after};

use ask_defs::Ask;
use hex::FromHexError;
use outside::NoMemory;
use report_defs::Command;
use run_text::{command_alone, command_at, command_with, hash_of_word};
use std::alloc::Global;

/// Whether bytes are of ASCII.
fn is_ascii(bytes: &[u8]) -> bool
    ensures { result ≡ list_all (λ byte. nat_lt byte 128) bytes.now }
{
    bytes.iter().all(|byte| *byte < 128)
}

/// The text of a line, where it is of ASCII.
pub fn text_of(line: &[u8]) -> Option<&str>
    ensures { option_map (λ text. text.now) result ≡ (if answers.is_ascii line.now then Some line.now else None) }
{
    if !is_ascii(line) {
        return None;
    }
    match str::from_utf8(line) {
        Ok(text) => Some(text),
        Err(_) => None,
    }
}

/// The first word of a text, and what follows the space after it.
fn cut(text: &str) -> (&str, Option<&str>)
    ensures { words_of text.now ≡ result.0.now ∷ words_after (option_map (λ rest. rest.now) result.1) }
{
    match text.split_once(' ') {
        Some((word, rest)) => (word, Some(rest)),
        None => (text, None),
    }
}

/// Whether a word is the text of bytes.
fn is_text_of(alloc: Global, word: &[u8], bytes: &[u8]) -> Result<bool, NoMemory>
    ensures { IfOk result (λ is. is ≡ bytes_eq word.now (hex_text bytes.now)) }
{
    let digits = hex::encode(alloc, bytes)?;
    match word {
        [b'0', b'x', rest @ ..] => Ok(rest == digits.as_bytes()),
        _ => Ok(false),
    }
}

/// Bytes that were read of a word, where it is their text.
fn spelled(alloc: Global, word: &[u8], bytes: Vec<u8>) -> Result<Option<Vec<u8>>, NoMemory>
    ensures { IfOk result (λ found. option_map (λ it. it.items) found ≡ asks.bytes_spelled word.now (Some bytes.items)) }
{
    match is_text_of(alloc, word, &bytes) {
        Ok(true) => Ok(Some(bytes)),
        Ok(false) => Ok(None),
        Err(_) => Err(NoMemory),
    }
}

/// The bytes that a word spells. Only digits in lower case do, though both cases are read.
#[tactic(auto, unfolding(ask_defs::specs::Asks::bytes_of_word))]
fn bytes_of_word(alloc: Global, word: &[u8]) -> Result<Option<Vec<u8>>, NoMemory>
    ensures { IfOk result (λ found. option_map (λ bytes. bytes.items) found ≡ asks.bytes_of_word word.now) }
{
    let digits = if word.len() < 2 { &[] } else { &word[2..] };
    match hex::decode(alloc, digits) {
        Ok(bytes) => spelled(alloc, word, bytes),
        Err(FromHexError::OutOfMemory) => Err(NoMemory),
        Err(FromHexError::InvalidHexCharacter { .. }) => Ok(None),
        Err(FromHexError::OddLength) => Ok(None),
        Err(FromHexError::InvalidStringLength) => Ok(None),
    }
}

/// The bytes of a transaction that is to be judged, where a text asks for that.
pub fn checked_in(alloc: Global, text: &str) -> Result<Option<Vec<u8>>, NoMemory>
    ensures { IfOk result (λ found. option_map (λ bytes. bytes.items) found ≡ asks.checked_in (words_of text.now)) }
{
    let (name, rest) = cut(text);
    let Some(rest) = rest else {
        return Ok(None);
    };
    if name.as_bytes() != b"check".as_slice() {
        return Ok(None);
    }
    let (word, rest) = cut(rest);
    match rest {
        None => bytes_of_word(alloc, word.as_bytes()),
        Some(_) => Ok(None),
    }
}

/// A command that is a query.
fn query_in(command: Option<Command>) -> Option<Ask>
    ensures { result ≡ asks.query_in command }
{
    match command {
        Some(Command::Query(query)) => Some(Ask::Query(query)),
        _ => None,
    }
}

/// What is asked of a hash by this name.
fn asked_of(name: &[u8], hash: [u8; 32]) -> Option<Ask>
    ensures { result ≡ asks.asked_of name.now hash }
{
    if name == b"header".as_slice() {
        return Some(Ask::Header { hash });
    }
    if name == b"json".as_slice() {
        return Some(Ask::Json { hash });
    }
    if name == b"block".as_slice() {
        return Some(Ask::Block { hash });
    }
    if name == b"branch".as_slice() {
        return Some(Ask::Branch { hash });
    }
    if name == b"transaction".as_slice() {
        return Some(Ask::Transaction { hash });
    }
    None
}

/// What a name and one argument ask.
fn asked_with(name: &[u8], argument: &str) -> Option<Ask>
    ensures { result ≡ asks.or_else (asks.query_in (grammar.command_with name.now argument.now)) (option_and_then (asks.asked_of name.now) (grammar.hash_of_word argument.now)) }
{
    match query_in(command_with(name, argument)) {
        Some(asked) => Some(asked),
        None => match hash_of_word(argument) {
            Some(hash) => asked_of(name, hash),
            None => None,
        },
    }
}

/// What a text asks.
pub fn asked_in(text: &str) -> Option<Ask>
    ensures { result ≡ asks.asked_in (words_of text.now) }
{
    let (name, rest) = cut(text);
    let Some(rest) = rest else {
        return query_in(command_alone(name.as_bytes()));
    };
    let (first, rest) = cut(rest);
    let Some(rest) = rest else {
        return asked_with(name.as_bytes(), first);
    };
    let (second, rest) = cut(rest);
    match rest {
        None => query_in(command_at(name.as_bytes(), first, second)),
        Some(_) => None,
    }
}
