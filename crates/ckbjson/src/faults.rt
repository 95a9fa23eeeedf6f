// What is wrong with a text in its place.
use crate::wanted::{Object, Wanted};
use json_spec::span_of;
use std::alloc::{AllocError, Global};

/// The hex digits after `0x`.
fn hex_digits(text: &[u8]) -> Option<&[u8]> {
    match text {
        [b'0', b'x', digits @ ..] => {
            for digit in digits {
                if !digit.is_ascii_hexdigit() {
                    return None;
                }
            }
            Some(digits)
        }
        _ => None,
    }
}

/// The hex digits of a number without leading zeros.
fn number_digits(text: &[u8]) -> Option<&[u8]> {
    match hex_digits(text) {
        Some([]) => None,
        Some([b'0', _, ..]) => None,
        digits => digits,
    }
}

/// How many bytes a text stands for, where it is one of bytes.
fn byte_count(text: &[u8]) -> Option<usize> {
    match hex_digits(text) {
        Some(digits) if digits.len() % 2 == 0 => Some(digits.len() / 2),
        _ => None,
    }
}

/// Whether a text is one of these names, or a byte above 1.
fn is_named(text: &[u8], zeroth: &[u8], first: &[u8]) -> bool {
    if text == zeroth || text == first {
        return true;
    }
    byte_count(text) == Some(1) && text != b"0x00".as_slice() && text != b"0x01".as_slice()
}

/// What is wanted of a number.
fn number_fault(alloc: Global, bits: usize, text: &[u8]) -> Result<Option<String>, AllocError> {
    let Some(digits) = number_digits(text) else {
        return Ok(Some(String::from_str(
            alloc,
            "a number is 0x and lower-case hex, without leading zeros",
        )?));
    };
    if digits.len() > bits / 4 {
        return Ok(Some(format!(in alloc; "a number below 2^{bits} is wanted")?));
    }
    Ok(None)
}

/// What is wanted of so many bytes.
fn array_fault(alloc: Global, size: usize, text: &[u8]) -> Result<Option<String>, AllocError> {
    let digits = size.saturating_mul(2);
    match byte_count(text) {
        None => Ok(Some(format!(in alloc; "{size} bytes are 0x and {digits} hex digits")?)),
        Some(count) if count != size => Ok(Some(format!(in alloc;
            "{size} bytes are wanted, and these are {count}"
        )?)),
        Some(_) => Ok(None),
    }
}

/// Epochs by hand or as a number.
fn are_epochs(alloc: Global, text: &[u8]) -> bool {
    match number_digits(text) {
        Some(digits) => digits.len() <= 16,
        None => span_of(alloc, text).is_ok(),
    }
}

/// A text of its own, where something is wrong.
fn fault_if(alloc: Global, wrong: bool, wanted: &str) -> Result<Option<String>, AllocError> {
    if wrong {
        Ok(Some(String::from_str(alloc, wanted)?))
    } else {
        Ok(None)
    }
}

/// What is wanted in place of a text, or None where it is well there.
pub(crate) fn text_fault(
    alloc: Global,
    wanted: Wanted,
    text: &[u8],
) -> Result<Option<String>, AllocError> {
    match wanted {
        Wanted::Number(bits) => number_fault(alloc, bits, text),
        Wanted::Epochs => fault_if(alloc, !are_epochs(alloc, text), EPOCHS),
        Wanted::Bytes => fault_if(alloc, byte_count(text).is_none(), BYTES),
        Wanted::Array(size) => array_fault(alloc, size, text),
        Wanted::HashType => fault_if(alloc, !is_named(text, b"data", b"type"), HASH_TYPE),
        Wanted::DepType => fault_if(alloc, !is_named(text, b"code", b"dep_group"), DEP_TYPE),
        Wanted::Anything => Ok(None),
        Wanted::Object(_) | Wanted::OptionalScript | Wanted::List(_) => {
            Ok(Some(fault_of(alloc, wanted)?))
        }
    }
}

const EPOCHS: &str = "epochs are 4 or 1 1/3 in quotes, the fraction below 1, or a number";

const BYTES: &str = "bytes are 0x and hex digits, two for each";

const HASH_TYPE: &str = "a hash type is data, type, or another byte as 0x02";

const DEP_TYPE: &str = "a dep type is code, dep_group, or another byte as 0x02";

/// What is wanted, where something of another kind stands.
pub(crate) fn fault_of(alloc: Global, wanted: Wanted) -> Result<String, AllocError> {
    match wanted {
        Wanted::Number(_) => String::from_str(
            alloc,
            "a number is a text in quotes: 0x and lower-case hex, without leading zeros",
        ),
        Wanted::Epochs => String::from_str(alloc, EPOCHS),
        Wanted::Bytes => String::from_str(
            alloc,
            "bytes are a text in quotes: 0x and hex digits, two for each",
        ),
        Wanted::Array(size) => {
            let digits = size.saturating_mul(2);
            format!(in alloc; "{size} bytes are a text in quotes: 0x and {digits} hex digits")
        }
        Wanted::HashType => String::from_str(alloc, HASH_TYPE),
        Wanted::DepType => String::from_str(alloc, DEP_TYPE),
        Wanted::Object(object) => object_fault(alloc, "an object is wanted", object),
        Wanted::OptionalScript => {
            object_fault(alloc, "null is wanted, or an object", Object::Script)
        }
        Wanted::List(_) => String::from_str(alloc, "a list is wanted"),
        Wanted::Anything => String::from_str(alloc, "a value is wanted"),
    }
}

fn object_fault(alloc: Global, wanted: &str, object: Object) -> Result<String, AllocError> {
    let mut line = String::from_str(alloc, wanted)?;
    line.push_str(" with the keys ")?;
    push_keys(&mut line, object)?;
    Ok(line)
}

/// Adds the keys of an object.
pub(crate) fn push_keys(line: &mut String, object: Object) -> Result<(), AllocError> {
    for (i, (key, _)) in object.keys().iter().enumerate() {
        if i > 0 {
            line.push_str(", ")?;
        }
        line.push_str(key)?;
    }
    Ok(())
}
