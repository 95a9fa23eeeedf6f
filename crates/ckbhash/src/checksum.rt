// The hash of all that a reader gives.

ghost use Rattle.std.specs.Prelude.{◌≡◌, ◌<◌, IfOk, IfSome, OnOk, length};
ghost use Rattle.std.specs.Io.KnownBytes.{Appends};
ghost use Rattle.chain_defs.specs.CkbHash.{ckbhash};
ghost use Rattle.ckbhash.specs.Checksum.{checksum_line, digest_line};

use blake2b_ckb::Hasher;
use std::alloc::Global;
use std::io;
use std::io::{Read, Write};

const PIECE_LEN: usize = 65536;

/// Reads to the end, and writes the line of what was read. Nothing is written where a read fails.
/// std does not say when a read or a write fails, so no clause tells when this one does.
pub fn print_checksum<R: Read, W: Write>(
    alloc: Global,
    input: &mut R,
    out: &mut W,
) -> io::Result<()>
    ensures { OnOk result (IfSome (R.remaining input.old) (λ bytes.
        Appends (W.contents out.old) (W.contents out.new) (checksum_line bytes))) }
{
    let mut buffer = vec![in alloc; 0u8; PIECE_LEN]?;
    let digest = digest_of(input, &mut buffer)?;
    let line = line_of(&digest);
    out.write_all(&line)
}

// The hash of the bytes that the reader has left, read through the buffer.
fn digest_of<R: Read>(input: &mut R, buffer: &mut [u8]) -> io::Result<[u8; 32]>
    requires { 0 < length buffer.old }
    ensures { IfOk result (λ digest. IfSome (R.remaining input.old) (λ bytes. digest ≡ ckbhash bytes)) }
{
    let mut hasher = Hasher::new();
    'pieces: for _ in 0..u64::MAX {
        let count = input.read(buffer)?;
        if count == 0 {
            return Ok(hasher.finalize());
        }
        hasher.update(&buffer[..count]);
    }
    Err(io::Error::from(io::ErrorKind::FileTooLarge))
}

fn line_of(digest: &[u8; 32]) -> [u8; 68]
    ensures { result ≡ digest_line digest.now }
{
    let mut line = [0u8; 68];
    let (digits, tail) = line.split_at_mut(64);
    let _fits = hex::encode_to_slice(digest, digits);
    tail.copy_from_slice(b"  -\n");
    line
}
