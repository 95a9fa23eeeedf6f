// Hex digits.
ghost use Rattle.std.specs.Prelude.{◌≡◌, ◌++◌, ◌≤◌, false, drop, OnOk};
ghost use Rattle.std.specs.Fmt.{digits};
ghost use Rattle.hex.specs.Hex.{encode_lower};

use outside::NoMemory;

const DIGITS: &[u8; 16] = b"0123456789abcdef";

/// Writes the hex digits of a number at the end of `text`, and gives where they start.
pub(crate) fn number_digits(n: u128, text: &mut [u8; 64]) -> usize
    ensures bound { result ≤ 64 }
    ensures value { drop result text.new ≡ digits 16 false n }
{
    let mut i = 64;
    let mut rest = n;
    while i > 0 {
        i -= 1;
        text[i] = DIGITS[(rest % 16) as usize];
        rest /= 16;
        if rest == 0 {
            break;
        }
    }
    i
}

/// Puts two hex digits for each byte.
pub(crate) fn put_digits(out: &mut Vec<u8>, bytes: &[u8]) -> Result<(), NoMemory>
    ensures { OnOk result (out.new.items ≡ out.old.items ++ encode_lower bytes.now) }
{
    'digits: for byte in bytes {
        out.push(DIGITS[(*byte / 16) as usize])?;
        out.push(DIGITS[(*byte % 16) as usize])?;
    }
    Ok(())
}
