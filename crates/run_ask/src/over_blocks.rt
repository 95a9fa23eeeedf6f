// A kept block by its hash, and the rows of the transactions that the best branch committed, over what is kept and a source of kept blocks.
ghost use Rattle.std.specs.Prelude.{◌≡◌, ◌<◌, ◌^◌, ◌++◌, Err, Some, length, IfOk, OnOk, IsSome};
ghost use Rattle.std.specs.Option.{option_map};
ghost use Rattle.outside.specs.declared.disk.Damage.{Damage};
ghost use Rattle.outside.specs.declared.disk.ReadStop.TheVariants.{Damaged};
ghost use Rattle.chain_defs.specs.Tip.{best_branch};
ghost use Rattle.chain_tree.specs.Reading.{HasRead, stop_of};
ghost use Rattle.node_store.specs.Kept.{stored_of};
ghost use Rattle.transaction_index.specs.Rows.{rows_from};
ghost use Rattle.run_ask.specs.Finding.{IsNamed, AreRowsAdded, AreRowsOf};

use chain_tree::Blocks;
use node_store::Kept;
use outside::ReadStop;
use std::alloc::{AllocError, Global};
use transaction_index::Row;
use view_hashes::transaction_hashes;

/// The bytes of the kept block with a hash.
pub(crate) fn named<B: Blocks>(
    alloc: Global,
    kept: &Kept,
    blocks: &mut B,
    hash: &[u8; 32],
) -> Result<Option<Vec<u8>>, ReadStop>
    requires counts { B.count blocks.old ≡ length kept.now.chain.blocks }
    ensures read { HasRead B.told B.count B.loans_of B.faults B.damages blocks.old blocks.new (stop_of result) }
    ensures block { B.told blocks.old ≡ Some (stored_of kept.now)
        → IfOk result (λ found. IsNamed kept.now.chain hash.now (option_map (λ bytes. bytes.items) found)) }
    ensures undamaged { IsSome (B.told blocks.old) → (damage : Damage) → result ≡ Err (Damaged damage) → ⊥ }
{
    let Some(place) = kept.tree.find(hash) else {
        return Ok(None);
    };
    match blocks.bring(place) {
        Ok(()) => {}
        Err(stop) => return Err(stop),
    }
    let Ok(bytes) = blocks.block().bytes().to_vec(alloc) else {
        return Err(ReadStop::NoMemory);
    };
    Ok(Some(bytes))
}

/// Adds a row for each of these hashes, in the block of a number.
fn push_rows(rows: &mut Vec<Row>, hashes: &[[u8; 32]], number: u32) -> Result<(), AllocError>
    requires { length hashes.now < 2 ^ 30 }
    ensures { OnOk result (rows.new.items ≡ rows.old.items ++ rows_from number 0 hashes.now) }
{
    'hashes: for place in 0..hashes.len() {
        let row = Row {
            hash: hashes[place],
            number,
            place: place as u32,
        };
        match rows.push(row) {
            Ok(()) => {}
            Err(_) => return Err(AllocError),
        }
    }
    Ok(())
}

/// Adds the rows of the kept block at a place, which are told to stand in one of this number.
fn take_rows<B: Blocks>(
    alloc: Global,
    kept: &Kept,
    blocks: &mut B,
    place: u32,
    number: u32,
    rows: &mut Vec<Row>,
) -> Result<(), ReadStop>
    requires within { place < length kept.now.chain.blocks }
    requires counts { B.count blocks.old ≡ length kept.now.chain.blocks }
    ensures read { HasRead B.told B.count B.loans_of B.faults B.damages blocks.old blocks.new (stop_of result) }
    ensures added { B.told blocks.old ≡ Some (stored_of kept.now)
        → OnOk result (AreRowsAdded kept.now.chain.blocks place number rows.old.items rows.new.items) }
    ensures undamaged { IsSome (B.told blocks.old) → (damage : Damage) → result ≡ Err (Damaged damage) → ⊥ }
{
    match blocks.bring(place) {
        Ok(()) => {}
        Err(stop) => return Err(stop),
    }
    let block = blocks.block();
    let Ok(hashes) = transaction_hashes(alloc, &block) else {
        return Err(ReadStop::NoMemory);
    };
    match push_rows(rows, &hashes, number) {
        Ok(()) => Ok(()),
        Err(_) => Err(ReadStop::NoMemory),
    }
}

/// The rows of the best branch, in its order.
pub(crate) fn committed_rows<B: Blocks>(
    alloc: Global,
    kept: &Kept,
    blocks: &mut B,
) -> Result<Vec<Row>, ReadStop>
    requires counts { B.count blocks.old ≡ length kept.now.chain.blocks }
    ensures read { HasRead B.told B.count B.loans_of B.faults B.damages blocks.old blocks.new (stop_of result) }
    ensures rows { B.told blocks.old ≡ Some (stored_of kept.now) → IfOk result (λ rows. AreRowsOf (best_branch kept.now.chain.blocks) rows.items) }
    ensures undamaged { IsSome (B.told blocks.old) → (damage : Damage) → result ≡ Err (Damaged damage) → ⊥ }
{
    let mut rows = Vec::new(alloc);
    let tip = kept.tree.tip();
    // numbers are below the count of entries, which is a u32
    let _ = kept.tree.len();
    let count = kept.tree.entry(tip).number as u32 + 1;
    'heights: for height in 0..count {
        let place = kept.tree.ancestor(tip, u64::from(height));
        match take_rows(alloc, kept, blocks, place, height, &mut rows) {
            Ok(()) => {}
            Err(stop) => return Err(stop),
        }
    }
    Ok(rows)
}
