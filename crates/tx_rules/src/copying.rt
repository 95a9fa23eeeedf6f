// Copies of the cells that rows name, each kept block read once.
ghost use Rattle.std.specs.Prelude.{◌≡◌, ◌<◌, ◌+◌, List, length, map, Some, None, Err, IfOk, IfSome, IsSomeAnd, IsTrue, Option, replicate, slice_get};
ghost use Rattle.std.specs.List.{All, AllZip};
ghost use Rattle.chain_defs.specs.Schema.{OutPoint, Block};
ghost use Rattle.chain_defs.specs.Cell.{Cell};
ghost use Rattle.cell_state.specs.Copies.{IsCopyOf, CopiesOutput, NamesOutput, output_in};
ghost use Rattle.chain_defs.specs.Row.{Row};
ghost use Rattle.outside.specs.declared.disk.Area.TheVariants.{Log};
ghost use Rattle.outside.specs.declared.disk.Damage.{Damage};
ghost use Rattle.outside.specs.declared.disk.ReadStop.TheVariants.{DiskFault, Damaged};
ghost use Rattle.chain_tree.specs.Told.{Stored, blocks_of};
ghost use Rattle.chain_tree.specs.Reading.{HasRead, stop_of};
ghost use Rattle.rule_defs.specs.Site.{Site, Found};
ghost use Rattle.tx_rules.specs.At.{AtValue, IsAtParent, IsSiteOf, AreSeen, found_row};
ghost use Rattle.tx_rules.specs.Copying.{IsFoundAt, IsBlockAt, IsCopyOfRow, CopiesItsRow, ServesAgain, AreRowsCopied, row_in, HoldsOutput};
ghost use Rattle.tx_rules.specs.Outcome.{Copies};

use crate::at::{Own, TxAt, damage_of};
use cell_state::{CellMeta, OutPoint, Resolved, copy_of, output_at};
use chain_tree::Blocks;
use mol_schema::BlockView;
use outside::{NoMemory, ReadStop};
use std::alloc::Global;

/// A copy of an output of a kept block.
fn copy_kept<B: Blocks>(
    alloc: Global,
    at: &TxAt<'_, '_, '_>,
    blocks: &mut B,
    o: OutPoint,
    meta: CellMeta,
) -> Result<Resolved, ReadStop>
    requires counts { B.count blocks.old ≡ length at.now.entries }
    requires within { meta.block < length at.now.entries }
    ensures read { HasRead B.told B.count B.loans_of B.faults B.damages blocks.old blocks.new (stop_of result) }
    ensures out_point { IfOk result (λ copy. copy.out_point ≡ o) }
    ensures row { IfOk result (λ copy. copy.row ≡ meta) }
    ensures output { IfOk result HoldsOutput }
    ensures copied { (stored : List Stored) (cell : Cell) → B.told blocks.old ≡ Some stored → NamesOutput stored o meta cell → IfOk result (IsCopyOf cell) }
    ensures exact { (stored : List Stored) (made : Stored) → B.told blocks.old ≡ Some stored → slice_get stored meta.block ≡ Some made
        → IfOk result (CopiesOutput (output_in made.block meta.transaction o.index)) }
    ensures undamaged { (stored : List Stored) (cell : Cell) → B.told blocks.old ≡ Some stored → NamesOutput stored o meta cell
        → (damage : Damage) → result ≡ Err (Damaged damage) → ⊥ }
{
    match blocks.bring(meta.block) {
        Ok(()) => {}
        Err(stop) => return Err(stop),
    }
    let block = blocks.block();
    match copy_read(alloc, at, &block, o, meta) {
        Ok(copy) => Ok(copy),
        Err(stop) => {
            blocks.report(stop);
            Err(stop)
        }
    }
}

/// A copy of an output of a block that is read.
fn copy_read(
    alloc: Global,
    at: &TxAt<'_, '_, '_>,
    block: &BlockView<'_>,
    o: OutPoint,
    meta: CellMeta,
) -> Result<Resolved, ReadStop>
    ensures out_point { IfOk result (λ copy. copy.out_point ≡ o) }
    ensures row { IfOk result (λ copy. copy.row ≡ meta) }
    ensures output { IfOk result HoldsOutput }
    ensures copied { (cell : Cell) → output_in block.now meta.transaction o.index ≡ Some (cell.output, cell.content) → IfOk result (IsCopyOf cell) }
    ensures exact { IfOk result (CopiesOutput (output_in block.now meta.transaction o.index)) }
    ensures undamaged { (cell : Cell) → output_in block.now meta.transaction o.index ≡ Some (cell.output, cell.content)
        → (damage : Damage) → result ≡ Err (Damaged damage) → ⊥ }
    ensures damage { (damage : Damage) → result ≡ Err (Damaged damage) → damage.area ≡ Log }
    ensures unread { result ≡ Err DiskFault → ⊥ }
{
    let Some((output, content)) = output_at(block, &o, &meta) else {
        return Err(ReadStop::Damaged(damage_of(at, &meta)));
    };
    match copy_of(alloc, o, meta, &output, content) {
        Ok(copy) => Ok(copy),
        Err(NoMemory) => Err(ReadStop::NoMemory),
    }
}

/// The same of the transactions of the block that is judged.
fn copy_named(
    alloc: Global,
    at: &TxAt<'_, '_, '_>,
    own: &Own<'_, '_>,
    o: OutPoint,
    meta: CellMeta,
) -> Result<Resolved, ReadStop>
    ensures out_point { IfOk result (λ copy. copy.out_point ≡ o) }
    ensures row { IfOk result (λ copy. copy.row ≡ meta) }
    ensures output { IfOk result HoldsOutput }
    ensures copied { (cell : Cell) → output_in own.now meta.transaction o.index ≡ Some (cell.output, cell.content) → IfOk result (IsCopyOf cell) }
    ensures exact { IfOk result (CopiesOutput (output_in own.now meta.transaction o.index)) }
    ensures undamaged { (cell : Cell) → output_in own.now meta.transaction o.index ≡ Some (cell.output, cell.content)
        → (damage : Damage) → result ≡ Err (Damaged damage) → ⊥ }
    ensures damage { (damage : Damage) → result ≡ Err (Damaged damage) → damage.area ≡ Log }
    ensures unread { result ≡ Err DiskFault → ⊥ }
{
    let Some((output, content)) = own.output_at(&o, &meta) else {
        return Err(ReadStop::Damaged(damage_of(at, &meta)));
    };
    match copy_of(alloc, o, meta, &output, content) {
        Ok(copy) => Ok(copy),
        Err(NoMemory) => Err(ReadStop::NoMemory),
    }
}

/// A copy of an output of the block that is judged.
fn copy_own(
    alloc: Global,
    at: &TxAt<'_, '_, '_>,
    o: OutPoint,
    meta: CellMeta,
) -> Result<Resolved, ReadStop>
    ensures out_point { IfOk result (λ copy. copy.out_point ≡ o) }
    ensures row { IfOk result (λ copy. copy.row ≡ meta) }
    ensures output { IfOk result HoldsOutput }
    ensures copied { (block : Block) (cell : Cell) → at.now.block ≡ Some block → output_in block meta.transaction o.index ≡ Some (cell.output, cell.content)
        → IfOk result (IsCopyOf cell) }
    ensures judged { IfOk result (λ copy. IsSomeAnd at.now.block (λ b. CopiesOutput (output_in b meta.transaction o.index) copy)) }
    ensures undamaged { (block : Block) (cell : Cell) → at.now.block ≡ Some block → output_in block meta.transaction o.index ≡ Some (cell.output, cell.content)
        → (damage : Damage) → result ≡ Err (Damaged damage) → ⊥ }
    ensures damage { (damage : Damage) → result ≡ Err (Damaged damage) → damage.area ≡ Log }
    ensures unread { result ≡ Err DiskFault → ⊥ }
{
    let Some(own) = &at.block else {
        return Err(ReadStop::Damaged(damage_of(at, &meta)));
    };
    copy_named(alloc, at, own, o, meta)
}

/// A copy of the cell of a row. Damaged where the row's block is none that the transaction sees, or has no such output.
fn copy_row<B: Blocks>(
    alloc: Global,
    at: &TxAt<'_, '_, '_>,
    blocks: &mut B,
    o: OutPoint,
    meta: CellMeta,
) -> Result<Resolved, ReadStop>
    requires placed { IsAtParent at.now }
    requires counts { B.count blocks.old ≡ length at.now.entries }
    ensures read { HasRead B.told B.count B.loans_of B.faults B.damages blocks.old blocks.new (stop_of result) }
    ensures out_point { IfOk result (λ copy. copy.out_point ≡ o) }
    ensures row { IfOk result (λ copy. copy.row ≡ meta) }
    ensures output { IfOk result HoldsOutput }
    ensures copied { (stored : List Stored) (rows : OutPoint → Option Row) (site : Site) (found : Found) → B.told blocks.old ≡ Some stored
        → IsSiteOf stored at.now rows site → IsFoundAt stored at.now.parent site found (o, meta) → IfOk result (IsCopyOf found.cell) }
    ensures of_row { IfOk result (CopiesItsRow (B.told blocks.old) at.now) }
    ensures undamaged { (stored : List Stored) (rows : OutPoint → Option Row) (site : Site) (found : Found) → B.told blocks.old ≡ Some stored
        → IsSiteOf stored at.now rows site → IsFoundAt stored at.now.parent site found (o, meta) → (damage : Damage) → result ≡ Err (Damaged damage) → ⊥ }
{
    let kept = at.tree.len();
    if meta.block < kept {
        copy_kept(alloc, at, blocks, o, meta)
    } else if meta.block == kept {
        match copy_own(alloc, at, o, meta) {
            Ok(copy) => Ok(copy),
            Err(stop) => {
                blocks.report(stop);
                Err(stop)
            }
        }
    } else {
        let stop = ReadStop::Damaged(damage_of(at, &meta));
        blocks.report(stop);
        Err(stop)
    }
}

/// Rows, and an order of them in which those of one block stand side by side: the block and the place of each.
#[derive(Clone, Copy)]
struct Ordered<'r> {
    rows: &'r [(OutPoint, CellMeta)],
    order: &'r [(u32, usize)],
}

/// The blocks of rows of which no copy is taken, with the rows' places, those of one block side by side.
fn by_block(
    alloc: Global,
    rows: &[(OutPoint, CellMeta)],
    taken: &[Option<Resolved>],
) -> Result<Vec<(u32, usize)>, NoMemory>
    requires long { length taken.now ≡ length rows.now }
    ensures places { IfOk result (λ order. All (λ it. it.1 < length rows.now) order.items) }
{
    let mut order = Vec::new(alloc);
    'rows: for i in 0..rows.len() {
        if taken[i].is_none() {
            let row = rows[i];
            order.push((row.1.block, i))?;
        }
    }
    order.sort_unstable();
    Ok(order)
}

/// Whether several rows of one block start at a place of their order.
fn starts_several(order: &[(u32, usize)], j: usize) -> bool
    requires { j < length order.now }
    ensures { IsTrue result → j + 1 < length order.now }
{
    let block = order[j].0;
    (j == 0 || order[j - 1].0 != block) && j + 1 < order.len() && order[j + 1].0 == block
}

/// A place for the copy of each of so many rows.
fn none_taken(alloc: Global, count: usize) -> Result<Vec<Option<Resolved>>, NoMemory>
    ensures { IfOk result (λ taken. taken.items ≡ replicate count None) }
{
    let mut taken = Vec::new(alloc);
    'rows: for _ in 0..count {
        taken.push(None)?;
    }
    Ok(taken)
}

/// Whether a copy is that of a row.
fn is_of(row: &(OutPoint, CellMeta), copy: &Resolved) -> bool
    ensures { IsTrue result → row_in copy.now ≡ row.now }
{
    row.0 == copy.out_point && row.1 == copy.meta
}

/// Takes a copy that was made before to a place, where it is that of the row there. Another one is let go.
fn take_again(
    rows: &[(OutPoint, CellMeta)],
    i: usize,
    copy: Resolved,
    taken: &mut [Option<Resolved>],
)
    requires long { length taken.old ≡ length rows.now }
    ensures long { length taken.new ≡ length rows.now }
    ensures taken { (told : Option (List Stored)) (at : AtValue) → ServesAgain told at copy → AreRowsCopied told at rows.now taken.old → AreRowsCopied told at rows.now taken.new }
{
    if i < rows.len() && is_of(&rows[i], &copy) {
        taken[i] = Some(copy);
    }
}

/// Takes the last of some copies that were made before to its own place in their list, where it is that of the row there.
fn take_last(
    rows: &[(OutPoint, CellMeta)],
    before: &mut Vec<Resolved>,
    taken: &mut [Option<Resolved>],
)
    requires long { length taken.old ≡ length rows.now }
    ensures long { length taken.new ≡ length rows.now }
    ensures again { (told : Option (List Stored)) (at : AtValue) → All (ServesAgain told at) before.old.items → All (ServesAgain told at) before.new.items }
    ensures taken { (told : Option (List Stored)) (at : AtValue) → All (ServesAgain told at) before.old.items → AreRowsCopied told at rows.now taken.old → AreRowsCopied told at rows.now taken.new }
{
    if let Some(copy) = before.pop() {
        take_again(rows, before.len(), copy, taken);
    }
}

/// Takes the copies that were made before, each to its own place in their list, where it is that of the row there. The
/// others are let go.
fn take_before(rows: &[(OutPoint, CellMeta)], before: Vec<Resolved>, taken: &mut [Option<Resolved>])
    requires long { length taken.old ≡ length rows.now }
    ensures long { length taken.new ≡ length rows.now }
    ensures taken { (told : Option (List Stored)) (at : AtValue) → All (ServesAgain told at) before.items → AreRowsCopied told at rows.now taken.old → AreRowsCopied told at rows.now taken.new }
{
    let mut before = before;
    'copies: for _ in 0..before.len() {
        take_last(rows, &mut before, taken);
    }
}

/// A place for the copy of each row, with those that were made before and serve again.
fn taken_before(
    alloc: Global,
    rows: &[(OutPoint, CellMeta)],
    before: Vec<Resolved>,
) -> Result<Vec<Option<Resolved>>, NoMemory>
    ensures long { IfOk result (λ taken. length taken.items ≡ length rows.now) }
    ensures taken { (told : Option (List Stored)) (at : AtValue) → All (ServesAgain told at) before.items → IfOk result (λ taken. AreRowsCopied told at rows.now taken.items) }
{
    let mut taken = none_taken(alloc, rows.len())?;
    take_before(rows, before, &mut taken);
    Ok(taken)
}

/// Takes copies of the cells of rows of a kept block that is read, each to its row's place: of those that the order
/// begins with.
fn take_read(
    alloc: Global,
    at: &TxAt<'_, '_, '_>,
    read: &BlockView<'_>,
    block: u32,
    these: &Ordered<'_>,
    taken: &mut [Option<Resolved>],
) -> Result<(), ReadStop>
    requires placed { IsAtParent at.now }
    requires within { block < length at.now.entries }
    requires places { All (λ it. it.1 < length these.now.rows.now) these.now.order.now }
    requires long { length taken.old ≡ length these.now.rows.now }
    ensures long { length taken.new ≡ length these.now.rows.now }
    ensures taken { (told : Option (List Stored)) → IsBlockAt told block read.now → AreRowsCopied told at.now these.now.rows.now taken.old
        → IfOk result (λ _. AreRowsCopied told at.now these.now.rows.now taken.new) }
    ensures undamaged { (stored : List Stored) (seen : OutPoint → Option Row) (site : Site) (founds : List Found) → IsBlockAt (Some stored) block read.now
        → IsSiteOf stored at.now seen site → AreSeen site founds → these.now.rows.now ≡ map (found_row (blocks_of stored) at.now.parent) founds
        → (damage : Damage) → result ≡ Err (Damaged damage) → ⊥ }
    ensures damage { (damage : Damage) → result ≡ Err (Damaged damage) → damage.area ≡ Log }
    ensures unread { result ≡ Err DiskFault → ⊥ }
{
    let rows = these.rows;
    let order = these.order;
    'order: for j in 0..order.len() {
        let place = order[j].1;
        let row = rows[place];
        if row.1.block != block {
            return Ok(());
        }
        let copy = match copy_read(alloc, at, read, row.0, row.1) {
            Ok(copy) => copy,
            Err(stop) => return Err(stop),
        };
        taken[place] = Some(copy);
    }
    Ok(())
}

/// Takes copies of the cells of rows of a kept block, which is read once, as `take_read` does.
fn take_kept<B: Blocks>(
    alloc: Global,
    at: &TxAt<'_, '_, '_>,
    blocks: &mut B,
    meta: CellMeta,
    these: &Ordered<'_>,
    taken: &mut [Option<Resolved>],
) -> Result<(), ReadStop>
    requires placed { IsAtParent at.now }
    requires counts { B.count blocks.old ≡ length at.now.entries }
    requires within { meta.block < length at.now.entries }
    requires places { All (λ it. it.1 < length these.now.rows.now) these.now.order.now }
    requires long { length taken.old ≡ length these.now.rows.now }
    ensures read { HasRead B.told B.count B.loans_of B.faults B.damages blocks.old blocks.new (stop_of result) }
    ensures long { length taken.new ≡ length these.now.rows.now }
    ensures taken { AreRowsCopied (B.told blocks.old) at.now these.now.rows.now taken.old → IfOk result (λ _. AreRowsCopied (B.told blocks.old) at.now these.now.rows.now taken.new) }
    ensures undamaged { (stored : List Stored) (seen : OutPoint → Option Row) (site : Site) (founds : List Found) → B.told blocks.old ≡ Some stored
        → IsSiteOf stored at.now seen site → AreSeen site founds → these.now.rows.now ≡ map (found_row (blocks_of stored) at.now.parent) founds
        → (damage : Damage) → result ≡ Err (Damaged damage) → ⊥ }
{
    match blocks.bring(meta.block) {
        Ok(()) => {}
        Err(stop) => return Err(stop),
    }
    let block = blocks.block();
    match take_read(alloc, at, &block, meta.block, these, taken) {
        Ok(()) => Ok(()),
        Err(stop) => {
            blocks.report(stop);
            Err(stop)
        }
    }
}

/// Takes copies of the cells of rows of kept blocks that made several of them, each to its row's place. The order has
/// the rows by their blocks.
fn take_several<B: Blocks>(
    alloc: Global,
    at: &TxAt<'_, '_, '_>,
    blocks: &mut B,
    rows: &[(OutPoint, CellMeta)],
    order: &[(u32, usize)],
    taken: &mut [Option<Resolved>],
) -> Result<(), ReadStop>
    requires placed { IsAtParent at.now }
    requires counts { B.count blocks.old ≡ length at.now.entries }
    requires places { All (λ it. it.1 < length rows.now) order.now }
    requires long { length taken.old ≡ length rows.now }
    ensures read { HasRead B.told B.count B.loans_of B.faults B.damages blocks.old blocks.new (stop_of result) }
    ensures long { length taken.new ≡ length rows.now }
    ensures taken { AreRowsCopied (B.told blocks.old) at.now rows.now taken.old → IfOk result (λ _. AreRowsCopied (B.told blocks.old) at.now rows.now taken.new) }
    ensures undamaged { (stored : List Stored) (seen : OutPoint → Option Row) (site : Site) (founds : List Found) → B.told blocks.old ≡ Some stored
        → IsSiteOf stored at.now seen site → AreSeen site founds → rows.now ≡ map (found_row (blocks_of stored) at.now.parent) founds
        → (damage : Damage) → result ≡ Err (Damaged damage) → ⊥ }
{
    let kept = at.tree.len();
    'order: for j in 0..order.len() {
        let row = rows[order[j].1];
        if row.1.block < kept && starts_several(order, j) {
            let these = Ordered {
                rows,
                order: &order[j..],
            };
            match take_kept(alloc, at, blocks, row.1, &these, taken) {
                Ok(()) => {}
                Err(stop) => return Err(stop),
            }
        }
    }
    Ok(())
}

/// A copy of the cell of a row: the one that is taken, or else one that is copied now, as `copy_row` does.
fn taken_or_copied<B: Blocks>(
    alloc: Global,
    at: &TxAt<'_, '_, '_>,
    blocks: &mut B,
    taken: Option<Resolved>,
    o: OutPoint,
    meta: CellMeta,
) -> Result<Resolved, ReadStop>
    requires placed { IsAtParent at.now }
    requires counts { B.count blocks.old ≡ length at.now.entries }
    requires taken { IfSome taken (IsCopyOfRow (B.told blocks.old) at.now (o, meta)) }
    ensures read { HasRead B.told B.count B.loans_of B.faults B.damages blocks.old blocks.new (stop_of result) }
    ensures copy { IfOk result (IsCopyOfRow (B.told blocks.old) at.now (o, meta)) }
    ensures undamaged { (stored : List Stored) (rows : OutPoint → Option Row) (site : Site) (found : Found) → B.told blocks.old ≡ Some stored
        → IsSiteOf stored at.now rows site → IsFoundAt stored at.now.parent site found (o, meta) → (damage : Damage) → result ≡ Err (Damaged damage) → ⊥ }
{
    match taken {
        Some(copy) => Ok(copy),
        None => copy_row(alloc, at, blocks, o, meta),
    }
}

/// Copies of the cells of rows, in their order: each the one that is taken to its row's place, or else one that is
/// copied now, as `copy_row` does.
fn copy_each<B: Blocks>(
    alloc: Global,
    at: &TxAt<'_, '_, '_>,
    blocks: &mut B,
    rows: &[(OutPoint, CellMeta)],
    taken: &mut [Option<Resolved>],
) -> Result<Vec<Resolved>, ReadStop>
    requires placed { IsAtParent at.now }
    requires counts { B.count blocks.old ≡ length at.now.entries }
    requires long { length taken.old ≡ length rows.now }
    requires taken { AreRowsCopied (B.told blocks.old) at.now rows.now taken.old }
    ensures read { HasRead B.told B.count B.loans_of B.faults B.damages blocks.old blocks.new (stop_of result) }
    ensures copies { IfOk result (λ copies. AllZip (IsCopyOfRow (B.told blocks.old) at.now) rows.now copies.items) }
    ensures undamaged { (stored : List Stored) (seen : OutPoint → Option Row) (site : Site) (founds : List Found) → B.told blocks.old ≡ Some stored
        → IsSiteOf stored at.now seen site → AreSeen site founds → rows.now ≡ map (found_row (blocks_of stored) at.now.parent) founds
        → (damage : Damage) → result ≡ Err (Damaged damage) → ⊥ }
{
    let mut copies = Vec::new(alloc);
    'each: for i in 0..rows.len() {
        let row = rows[i];
        let copy = match taken_or_copied(alloc, at, blocks, taken[i].take(), row.0, row.1) {
            Ok(copy) => copy,
            Err(stop) => return Err(stop),
        };
        if copies.push(copy).is_err() {
            return Err(ReadStop::NoMemory);
        }
    }
    Ok(copies)
}

/// Copies of the cells of rows, in their order. A kept block is read once, also where it made several of them, and not
/// for a copy that was made before: where one stands in its list at the place of its row, it is taken, and the others
/// are let go before anything is read.
pub(crate) fn fetch_all<B: Blocks>(
    alloc: Global,
    at: &TxAt<'_, '_, '_>,
    blocks: &mut B,
    rows: &[(OutPoint, CellMeta)],
    before: Vec<Resolved>,
) -> Result<Vec<Resolved>, ReadStop>
    requires placed { IsAtParent at.now }
    requires counts { B.count blocks.old ≡ length at.now.entries }
    requires before { All (ServesAgain (B.told blocks.old) at.now) before.items }
    ensures read { HasRead B.told B.count B.loans_of B.faults B.damages blocks.old blocks.new (stop_of result) }
    ensures rows { IfOk result (λ copies. map row_in copies.items ≡ rows.now) }
    ensures outputs { IfOk result (λ copies. All HoldsOutput copies.items) }
    ensures of_rows { IfOk result (λ copies. All (CopiesItsRow (B.told blocks.old) at.now) copies.items) }
    ensures again { IfOk result (λ copies. All (ServesAgain (B.told blocks.old) at.now) copies.items) }
    ensures copied { (stored : List Stored) (seen : OutPoint → Option Row) (site : Site) (founds : List Found) → B.told blocks.old ≡ Some stored
        → IsSiteOf stored at.now seen site → AreSeen site founds → rows.now ≡ map (found_row (blocks_of stored) at.now.parent) founds
        → IfOk result (λ copies. AllZip (Copies (blocks_of stored) at.now.parent) founds copies.items) }
    ensures undamaged { (stored : List Stored) (seen : OutPoint → Option Row) (site : Site) (founds : List Found) → B.told blocks.old ≡ Some stored
        → IsSiteOf stored at.now seen site → AreSeen site founds → rows.now ≡ map (found_row (blocks_of stored) at.now.parent) founds
        → (damage : Damage) → result ≡ Err (Damaged damage) → ⊥ }
{
    let Ok(mut taken) = taken_before(alloc, rows, before) else {
        return Err(ReadStop::NoMemory);
    };
    let Ok(order) = by_block(alloc, rows, &taken) else {
        return Err(ReadStop::NoMemory);
    };
    match take_several(alloc, at, blocks, rows, &order, &mut taken) {
        Ok(()) => {}
        Err(stop) => return Err(stop),
    }
    copy_each(alloc, at, blocks, rows, &mut taken)
}
