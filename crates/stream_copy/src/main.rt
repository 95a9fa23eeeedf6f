//! Copies standard input to standard output: a run of the adapters of `outside_os` on real streams.
#![tactic(auto)]

use outside::{Failed, read_full, write_all};
use outside_os::{StdinSource, StdoutSink};

fn main(rt: HostRuntime) -> Result<(), Failed> {
    let mut source = StdinSource::new(rt);
    let mut sink = StdoutSink::new(rt);
    let mut piece = [0; 16];
    for _ in 0..u64::MAX {
        let n = read_full(&mut source, &mut piece)?;
        write_all(&mut sink, &piece[..n])?;
        if n < piece.len() {
            break;
        }
    }
    Ok(())
}
