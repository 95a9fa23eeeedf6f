//! Live cells, transactions and their scripts: tries each row of its standard input, and prints the rows that differ.
//!
//! A row is a word and its columns, with a tab between two, bytes in hex. After `state` stands what blocks are answered that are
//! applied to live cells, one after the other, and which rows are live then: tests/rows/live_cells.py says what the columns are.
//! After `moves` stand kept blocks, and which rows are live at each as the cells are gone to over their tree:
//! tests/rows/moves.py says what those columns are.
//!
//! The other rows are about a chain. `spec` and `genesis` begin a chain, which stands under an edition of the rules where
//! `edition` comes between them, and `block` puts a block with its ext on it. `shadow`, `transaction` and `within` stand after
//! the last block, where all blocks stand in a row: tests/rows/transactions.py makes them, and says what their columns are.
//! `groups` and `rounds` are about a transaction's script groups, and call bytes by the names that rows `blob` give them:
//! tests/rows/script_groups.py makes them, and says what theirs are. bench/scripts.py makes rows `rounds` too, to measure how
//! long they take.
#![tactic(auto)]

mod answers;
mod cells;
mod groups;
mod kept;
mod live;
mod moves;
mod rows;

ghost use Rattle.std.specs.Prelude.{◌≡◌, ◌<◌};

use cell_state::State;
use cells::is_text;
use epochs::Spec;
use groups::{Blob, blob_with};
use kept::{Chain, of_genesis};
use moves::Moves;
use outside::Steps;
use row_table::{Row, Subject, all_agree};
use std::alloc::Global;
use std::marker::Brand;
use std::process::ExitCode;
use std::sync::ledger::{Blank, Ledger};
use std::{io, mem};

/// What the rows act on: live cells; those that are gone to over a tree; the specification, the chain and the blobs so far.
#[derive(Drop)]
struct Table<'s, L: Ledger> {
    steps: &'s mut Steps<L>,
    state: Option<State>,
    moves: Option<Moves>,
    spec: Option<Spec>,
    chain: Option<Chain>,
    blobs: Vec<Blob>,
}

fn adds<L: Ledger>(
    alloc: Global,
    chain: &mut Chain,
    steps: &mut Steps<L>,
    row: &mut Row,
) -> Option<bool> {
    let block = row.bytes(alloc)?;
    let ext = row.bytes(alloc)?;
    Some(chain.add(alloc, steps, &block, &ext).is_some())
}

fn shadows<L: Ledger>(
    alloc: Global,
    chain: &mut Chain,
    steps: &mut Steps<L>,
    row: &mut Row,
) -> Option<bool> {
    let new = row.bytes(alloc)?;
    let old = row.bytes(alloc)?;
    Some(chain.shadow(steps, &new, &old).is_some())
}

fn agrees_alone(alloc: Global, chain: &mut Chain, row: &mut Row) -> Option<bool> {
    let wanted = row.word();
    let tx = row.bytes(alloc)?;
    is_text(answers::alone(alloc, chain, &tx), wanted)
}

fn agrees_within<L: Ledger>(
    alloc: Global,
    chain: &mut Chain,
    steps: &mut Steps<L>,
    row: &mut Row,
) -> Option<bool> {
    let wanted = row.word();
    let earlier = row.bytes(alloc)?;
    let block = row.bytes(alloc)?;
    is_text(
        answers::within(alloc, steps, chain, &earlier, &block),
        wanted,
    )
}

fn agrees_in_rounds(
    alloc: Global,
    chain: &mut Chain,
    blobs: &[Blob],
    row: &mut Row,
) -> Option<bool> {
    let rounds = row.short()?;
    groups::agrees(alloc, blobs, chain, rounds, row)
}

/// Whether a row about a chain holds; None where it is none.
fn agrees_on_chain<L: Ledger>(
    alloc: Global,
    chain: &mut Chain,
    blobs: &[Blob],
    steps: &mut Steps<L>,
    word: &str,
    row: &mut Row,
) -> Option<bool> {
    match word {
        "block" => adds(alloc, chain, steps, row),
        "shadow" => shadows(alloc, chain, steps, row),
        "transaction" => agrees_alone(alloc, chain, row),
        "within" => agrees_within(alloc, chain, steps, row),
        "groups" => groups::agrees(alloc, blobs, chain, 1, row),
        "rounds" => agrees_in_rounds(alloc, chain, blobs, row),
        _ => None,
    }
}

impl<'s, L: Ledger> Table<'s, L> {
    fn begin_spec(&mut self, alloc: Global, row: &mut Row) -> Option<bool> {
        self.spec = Spec::read(&row.bytes(alloc)?).ok();
        Some(self.spec.is_some())
    }

    fn take_edition(&mut self, row: &mut Row) -> Option<bool> {
        let spec = self.spec?.with_edition(Some(row.number()?));
        self.spec = Some(spec);
        Some(true)
    }

    fn begin_chain(&mut self, alloc: Global, row: &mut Row) -> Option<bool> {
        let genesis = row.bytes(alloc)?;
        let chain = of_genesis(alloc, self.spec?, &genesis);
        drop(mem::replace(&mut self.chain, chain));
        Some(self.chain.as_mut()?.keep(alloc, &genesis, &[]).is_some())
    }

    fn take_blob(&mut self, alloc: Global, row: &mut Row) -> Option<bool> {
        let name = row.word();
        let blob = blob_with(alloc, name, row.bytes(alloc)?)?;
        Some(self.blobs.push(blob).is_ok())
    }

    fn agrees_on_chain(&mut self, alloc: Global, word: &str, row: &mut Row) -> Option<bool> {
        agrees_on_chain(
            alloc,
            self.chain.as_mut()?,
            &self.blobs,
            self.steps,
            word,
            row,
        )
    }
}

impl<'s, L: Ledger> Subject for Table<'s, L> {
    fn agrees(&mut self, alloc: Global, row: &mut Row<'_>) -> Option<bool> {
        match row.word() {
            "state" => live::agrees(alloc, &mut self.state, self.steps, row),
            "moves" => moves::agrees(alloc, &mut self.moves, self.steps, row),
            "spec" => self.begin_spec(alloc, row),
            "edition" => self.take_edition(row),
            "genesis" => self.begin_chain(alloc, row),
            "blob" => self.take_blob(alloc, row),
            word => self.agrees_on_chain(alloc, word, row),
        }
    }
}

fn all_rows_agree<L: Ledger>(rt: HostRuntime, steps: &mut Steps<L>) -> io::Result<bool> {
    let alloc = rt.alloc();
    let mut table = Table {
        steps,
        state: None,
        moves: None,
        spec: None,
        chain: None,
        blobs: Vec::new(alloc),
    };
    let all = all_agree(rt, &mut table);
    drop(table);
    all
}

fn begin<L: Ledger>(rt: HostRuntime, blank: Blank) -> io::Result<ExitCode>
    requires name { blank.name ≡ L.name }
    requires parts { blank.parts ≡ L.parts }
    requires some { 0 < L.parts }
{
    let mut steps = Steps::<L>::new(blank);
    let all = all_rows_agree(rt, &mut steps)?;
    Ok(ExitCode::from(u8::from(!all)))
}

fn main(rt: HostRuntime) -> io::Result<ExitCode> {
    begin::<Brand>(rt, Blank::new(1))
}
