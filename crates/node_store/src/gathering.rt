// What is kept of the blocks of a log, gathered as they are read.
ghost use Rattle.std.specs.Prelude.{◌≡◌, ◌<◌, ◌≤◌, [], true, length, IfOk, IfErr, IsOk, OnOk};
ghost use Rattle.chain_defs.specs.Ext.{count_at, is_ext};
ghost use Rattle.cell_state.specs.State.{rows};
ghost use Rattle.chain_tree.specs.Blocks.{Describes, AreRated};
ghost use Rattle.log_file.specs.Grammar.{AreBlocks};
ghost use Rattle.log_file.specs.Stops.{IsDamage};
ghost use Rattle.outside.specs.declared.disk.Area.TheVariants.{Log};
ghost use Rattle.cell_state.specs.Moves.{AreRowsOfBranch};
ghost use Rattle.node_store.specs.Kept.{kept_of, AreRowsOfKept, CountFees};
ghost use Rattle.node_store.specs.Gathering.{counts_fees, fits_at, or_unfit, IsBodyOfUnfit, AreLeftBy};

use crate::{Kept, Recorded};
use cell_state::State;
use chain_tree::{Entry, Tree};
use dao_math::is_rated;
use epochs::Spec;
use log_file::{LogStop, Visitor};
use mol_schema::BlockView;
use outside::{Area, Damage, NoMemory};
use std::alloc::Global;
use std::marker::Model;
use uncle_rules::Uncles;
use view_hashes::transaction_hashes;

/// What is gathered of the blocks of a log. Clauses see them, each with its ext.
#[derive(Drop)]
pub(crate) struct Gathering {
    blocks: Recorded,
    count: u32,
    uncles: Uncles,
    /// The live cells that the genesis leaves, once it was read.
    genesis: Option<State>,
    /// The place of the first block that does not fit: its DAO field is not rated, or, after the genesis, its ext does not
    /// count its fees.
    unfit: Option<u32>,
}

impl Model for Gathering {
    ghost use Rattle.node_store.specs.Kept.{RecordedValue};
    ghost use Rattle.node_store.specs.Gathering.{IsGathered};

    ghost Value = { RecordedValue };

    ghost view = { λ it. it.blocks };

    ghost invariant = { λ it. IsGathered it.blocks.stored it.count it.uncles it.genesis it.unfit };
}

/// The count of fees of an ext.
fn fees_in(ext: &[u8]) -> u32
    requires { 4 ≤ length ext.now }
    ensures { result ≡ count_at ext.now 0 }
{
    let mut count = [0; 4];
    count.copy_from_slice(&ext[..4]);
    u32::from_le_bytes(count)
}

/// Whether an ext counts a fee for each transaction of its block after the first.
fn counts(block: &BlockView<'_>, ext: &[u8]) -> bool
    requires { is_ext ext.now ≡ true }
    ensures { result ≡ counts_fees (record { block = block.now; ext = ext.now }) }
{
    fees_in(ext) as usize == block.transactions_count().saturating_sub(1)
}

/// Whether a block with its ext fits at a place: the genesis has no ext.
fn fits(block: &BlockView<'_>, ext: &[u8], entry: &Entry, place: u32) -> bool
    requires describes { Describes block.now entry.now }
    requires form { 0 < place → is_ext ext.now ≡ true }
    ensures { result ≡ fits_at place (record { block = block.now; ext = ext.now }) }
{
    if place == 0 {
        return is_rated(&entry.dao);
    }
    is_rated(&entry.dao) && counts(block, ext)
}

/// The place of the first block that does not fit, where one more was read.
fn first_unfit(unfit: Option<u32>, fits: bool, place: u32) -> Option<u32>
    ensures { result ≡ or_unfit unfit fits place }
{
    match unfit {
        Some(first) => Some(first),
        None => { if fits { None } else { Some(place) } }
    }
}

/// Takes the live cells that a block leaves, where its place is that of the genesis.
fn take_cells(
    alloc: Global,
    cells: &mut Option<State>,
    block: &BlockView<'_>,
    place: u32,
) -> Result<(), NoMemory>
    ensures genesis { place ≡ 0 → OnOk result (AreLeftBy block.now cells.new) }
    ensures later { 0 < place → cells.new ≡ cells.old }
{
    if place == 0 {
        let hashes = transaction_hashes(alloc, block)?;
        *cells = Some(State::genesis(alloc, block, &hashes)?);
    }
    Ok(())
}

impl Gathering {
    /// Of no block.
    pub(crate) fn new(alloc: Global) -> Gathering
        ensures { result.stored ≡ [] }
    {
        Gathering {
            blocks: Recorded::new(alloc),
            count: 0,
            uncles: Uncles::new(alloc),
            genesis: None,
            unfit: None,
        }
    }

    /// What is kept of the blocks, whose entries a tree has, and the live cells that the genesis leaves. Where a block's C or
    /// AR is 0, or what stands beside it is no ext for it, they have not joined, and the log is none of a store from the body
    /// of the first such block on.
    pub(crate) fn into_kept(self, spec: Spec, tree: Tree) -> Result<(Kept, State), LogStop>
        requires { AreBlocks self.stored tree.entries }
        ensures kept { IfOk result (λ it. it.0 ≡ kept_of spec self.stored tree.entries) }
        ensures cells { IfOk result (λ it. AreRowsOfBranch it.0.chain.blocks 0 (rows it.1)) }
        ensures below { IfOk result (λ it. AreRowsOfKept it.0.chain.blocks (rows it.1)) }
        ensures wrong { OnOk result (AreRated tree.entries × CountFees self.stored) }
        ensures right { AreRated tree.entries → CountFees self.stored → IsOk result }
        ensures stop { IfErr result (IsDamage (λ damage. (damage.area ≡ Log) × IsBodyOfUnfit self.stored tree.entries damage.at)) }
    {
        // A tree has a tip, so there was a genesis.
        let _ = tree.tip();
        let Gathering {
            blocks,
            count: _,
            uncles,
            genesis,
            unfit,
        } = self;
        match unfit {
            None => {}
            Some(place) => {
                let at = tree.entry(place).at;
                drop((blocks, uncles, genesis, tree));
                return Err(LogStop::NotAStore(Damage {
                    area: Area::Log,
                    at,
                }));
            }
        }
        let Some(cells) = genesis else { unreachable!() };
        let kept = Kept {
            spec,
            blocks,
            tree,
            uncles,
        };
        Ok((kept, cells))
    }
}

impl Visitor for Gathering {
    ghost visited = { λ it. it.stored };

    fn visit(
        &mut self,
        alloc: Global,
        block: &BlockView<'_>,
        ext: &[u8],
        entry: &Entry,
    ) -> Result<(), NoMemory> {
        let fits = fits(block, ext, entry, self.count);
        take_cells(alloc, &mut self.genesis, block, self.count)?;
        self.uncles.reserve(block.uncles_count())?;
        self.blocks.push(alloc, block, ext)?;
        self.uncles.add(block, self.count);
        self.unfit = first_unfit(self.unfit, fits, self.count);
        self.count += 1;
        Ok(())
    }
}
