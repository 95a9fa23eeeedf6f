// What a branch did with a cell, and which of its blocks proposed an id.
ghost use Rattle.std.specs.Prelude.{◌≡◌, ◌<◌, ◌≤◌, length};
ghost use Rattle.chain_tree.specs.Reading.{HasRead, stop_of};

use crate::page::Page;
use crate::site::Site;
use cell_state::{Cells, OutPoint, out_point_of};
use chain_tree::{Blocks, Tree};
use mol_schema::{BlockView, TxView, UncleView};
use outside::ReadStop;
use view_hashes::transaction_hash;

/// What the transactions of a block did with a cell: the hash of the one that spent it, and how many outputs the one has that
/// its out-point names.
#[derive(Clone, Copy)]
struct Deed {
    spent: Option<[u8; 32]>,
    outputs: Option<usize>,
}

/// The height of the block in which a cell was spent, and the hash of the transaction that spent it.
#[derive(Clone, Copy)]
struct SpentIn {
    height: u64,
    hash: [u8; 32],
}

/// What a branch did with a cell: in which block it was spent last, and by what; in which block the transaction stands that
/// its out-point names, and how many outputs that has.
#[derive(Clone, Copy)]
pub(crate) struct History {
    spent: Option<SpentIn>,
    made: Option<(u64, usize)>,
}

pub(crate) fn spends(tx: &TxView<'_>, o: &OutPoint) -> bool {
    let raw = tx.raw();
    'inputs: for i in 0..raw.inputs_count() {
        if out_point_of(&raw.inputs_item(i).previous_output()) == *o {
            return true;
        }
    }
    false
}

/// What the transactions of a block did with a cell. Those of the genesis and the first of a later block spend nothing.
fn deed_in(block: &BlockView<'_>, o: &OutPoint) -> Deed {
    let spends_some = block.header().number() > 0;
    let mut deed = Deed {
        spent: None,
        outputs: None,
    };
    'transactions: for i in 0..block.transactions_count() {
        let tx = block.transactions_item(i);
        let hash = transaction_hash(&tx);
        if hash == o.tx_hash {
            deed.outputs = Some(tx.raw().outputs_count());
        }
        if spends_some && i > 0 && spends(&tx, o) {
            deed.spent = Some(hash);
        }
    }
    deed
}

impl History {
    /// Takes what an earlier block of a height did.
    fn take(&mut self, height: u64, deed: Deed) {
        if let (None, Some(hash)) = (self.spent, deed.spent) {
            self.spent = Some(SpentIn { height, hash });
        }
        if let Some(outputs) = deed.outputs {
            self.made = Some((height, outputs));
        }
    }

    /// Appends what it was.
    pub(crate) fn push(&self, page: &mut Page, o: &OutPoint) {
        if let Some(spent) = &self.spent {
            page.add("found spent in block ");
            page.number(spent.height);
            page.add(" by transaction ");
            page.hash(&spent.hash);
            page.add("\n");
            return;
        }
        match self.made {
            Some((height, outputs)) if o.index as usize >= outputs => {
                page.add("found never made: the transaction, in block ");
                page.number(height);
                page.add(", has so many outputs: ");
                page.count(outputs);
                page.add("\n");
            }
            Some((height, _)) => {
                page.add("found made in block ");
                page.number(height);
                page.add("\n");
            }
            None => page.add("found never made: no block of the branch has the transaction\n"),
        }
    }
}

/// What the branch of a place did with a cell, block by block up to the one that made it.
pub(crate) fn history_of<B: Blocks>(
    tree: &Tree,
    from: u32,
    blocks: &mut B,
    o: &OutPoint,
) -> Result<History, ReadStop>
    requires counts { B.count blocks.old ≡ length tree.now.entries }
    ensures read { HasRead B.told B.count B.loans_of B.faults B.damages blocks.old blocks.new (stop_of result) }
{
    let mut history = History {
        spent: None,
        made: None,
    };
    let mut place = from;
    'branch: for _ in 0..tree.len() {
        if place >= tree.len() {
            break;
        }
        let entry = *tree.entry(place);
        match blocks.bring(place) {
            Ok(()) => {}
            Err(stop) => return Err(stop),
        }
        history.take(entry.number, deed_in(&blocks.block(), o));
        if history.made.is_some() || entry.number == 0 {
            break;
        }
        place = entry.parent;
    }
    Ok(history)
}

fn has_id(block: &BlockView<'_>, id: &[u8; 10]) -> bool {
    'own: for i in 0..block.proposals_count() {
        if block.proposals_item(i) == id.as_slice() {
            return true;
        }
    }
    'uncles: for i in 0..block.uncles_count() {
        if uncle_has_id(&block.uncles_item(i), id) {
            return true;
        }
    }
    false
}

fn uncle_has_id(uncle: &UncleView<'_>, id: &[u8; 10]) -> bool {
    'ids: for i in 0..uncle.proposals_count() {
        if uncle.proposals_item(i) == id.as_slice() {
            return true;
        }
    }
    false
}

/// The first height of the branch of a place at which an id is proposed, by a block or an uncle that it embeds.
pub(crate) fn first_proposal<B: Blocks>(
    tree: &Tree,
    from: u32,
    blocks: &mut B,
    id: &[u8; 10],
) -> Result<Option<u64>, ReadStop>
    requires counts { B.count blocks.old ≡ length tree.now.entries }
    ensures read { HasRead B.told B.count B.loans_of B.faults B.damages blocks.old blocks.new (stop_of result) }
{
    let mut first = None;
    let mut place = from;
    'branch: for _ in 0..tree.len() {
        if place >= tree.len() {
            break;
        }
        let entry = *tree.entry(place);
        match blocks.bring(place) {
            Ok(()) => {}
            Err(stop) => return Err(stop),
        }
        if has_id(&blocks.block(), id) {
            first = Some(entry.number);
        }
        if entry.number == 0 {
            break;
        }
        place = entry.parent;
    }
    Ok(first)
}

/// J19: when the id was proposed, and when it had to be.
pub(crate) fn explain_proposal<C: Cells, B: Blocks>(
    page: &mut Page,
    site: &Site<'_, '_, '_, '_, '_, C>,
    blocks: &mut B,
    id: &[u8; 10],
) -> Result<(), ReadStop>
    requires counts { B.count blocks.old ≡ length site.now.tree.now.entries }
    ensures read { HasRead B.told B.count B.loans_of B.faults B.damages blocks.old blocks.new (stop_of result) }
{
    let first = match first_proposal(site.tree, site.parent, blocks, id) {
        Ok(first) => first,
        Err(stop) => return Err(stop),
    };
    push_proposal(page, site, id, first);
    Ok(())
}

fn push_proposal<C: Cells>(
    page: &mut Page,
    site: &Site<'_, '_, '_, '_, '_, C>,
    id: &[u8; 10],
    first: Option<u64>,
) {
    let spec = site.spec;
    let height = site.height();
    page.add("place proposal id ");
    page.bytes(id);
    match first {
        None => page.add("\nfound proposed by no block of the branch\n"),
        Some(at) => {
            page.add("\nfound first proposed in block ");
            page.number(at);
            page.add("\n");
        }
    }
    let closest = u64::from(spec.w_close);
    if height < closest {
        page.add("wanted a proposal so many blocks before: ");
        page.number(closest);
        page.add("\n");
        return;
    }
    page.add("wanted a proposal in blocks ");
    page.number(height.saturating_sub(u64::from(spec.w_far)));
    page.add(" to ");
    page.number(height.saturating_sub(closest));
    page.add("\n");
}
