//! `ckbhash` prints the CKB hash of its standard input, as `b2sum` prints a hash: 64 lower-case hex
//! digits, two spaces, `-` and a line feed. Its memory does not grow with the input.
//!
//! The contract of use: `print_checksum` has written the line of all the bytes that its reader had,
//! where it answers `Ok`. What the system gives and takes is beyond any contract.
#![tactic(auto)]

mod checksum;

use checksum::print_checksum;
use std::io;

fn main(rt: HostRuntime) -> io::Result<()> {
    print_checksum(rt.alloc(), &mut rt.stdin(), &mut rt.stdout())
}
