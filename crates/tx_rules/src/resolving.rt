// All rules on one transaction, in their order.
ghost use Rattle.std.specs.Prelude.{◌≡◌, ◌<◌, ◌^◌, nat_abs, ◌++◌, List, length, map, Ok, Err, Some, None, IfOk, IsTrue, Option, slice_index};
ghost use Rattle.std.specs.List.{All, AllZip};
ghost use Rattle.outside.specs.declared.disk.Damage.{Damage};
ghost use Rattle.outside.specs.declared.disk.ReadStop.TheVariants.{DiskFault, Damaged};
ghost use Rattle.chain_defs.specs.Schema.{OutPoint};
ghost use Rattle.chain_defs.specs.Row.{Row};
ghost use Rattle.chain_defs.specs.Hashes.{transaction_hash};
ghost use Rattle.chain_defs.specs.Branch.{branch_places};
ghost use Rattle.chain_tree.specs.Entries.{place_of_hash};
ghost use Rattle.chain_tree.specs.Told.{Stored, blocks_of};
ghost use Rattle.chain_tree.specs.Reading.{HasRead};
ghost use Rattle.rule_defs.specs.Site.{Site};
ghost use Rattle.rule_defs.specs.RuleNumber.{rule_number};
ghost use Rattle.rule_defs.specs.TransactionRules as defs;
ghost use Rattle.rule_defs.specs.Resolving.{inputs, deps, heights};
ghost use Rattle.tx_rules.specs.At.{AtValue, IsAtParent, IsSiteOf, found_row, input_rows};
ghost use Rattle.tx_rules.specs.Steps.{spending_rules, naming_rules, using_rules, finding_rules, paying_rules, AnswersBy, AnswersWith, Stops, StopsLater, IsLater, AreNamed, AreFound, AreCopied, Pays, ResolvesTo};
ghost use Rattle.tx_rules.specs.declared.resolving.TxStop.TheVariants.{Read};
ghost use Rattle.tx_rules.specs.Reading.{read_stop, read_stop_of};
ghost use Rattle.tx_rules.specs.Copying.{row_in, CopiesItsRow, ServesAgain, HoldsOutput};
ghost use Rattle.tx_rules.specs.Outcome.{Copies, FollowsRows, IsFormed, IsTried, rules_to_27};

use crate::age::{are_mature, meets_each_since};
use crate::at::TxAt;
use crate::capacity::{Balance, balance_of};
use crate::copying::fetch_all;
use crate::deps::resolved_deps;
use crate::form::has_form;
use crate::headers::header_places;
use crate::inputs::{are_inputs_distinct, live_inputs};
use crate::outputs::makes_good_cells;
use crate::withdrawals::names_deposits;
use cell_state::{CellMeta, Cells, OutPoint, Resolved, ResolvedTx};
use chain_tree::Blocks;
use mol_schema::TxView;
use outside::{Damage, NoMemory, ReadStop};
use rule_defs::Rule;
use std::alloc::Global;
use std::error::Error;
use std::fmt;

/// A transaction that keeps J18 to J27.
#[derive(Drop)]
pub struct TxOk<'a> {
    pub resolved: ResolvedTx<'a>,
    /// Shannons.
    pub fee: u64,
    /// What its withdrawing inputs count beyond their capacities, in shannons; below 0 only where the accumulated rate
    /// fell.
    pub interest: i128,
}

/// Why a transaction was not resolved.
#[derive(Clone, Copy, Debug)]
pub enum TxStop {
    /// The first rule that it breaks, one of J18 to J27.
    Broken(Rule),
    /// The kept blocks could not be read, or there was no memory.
    Read(ReadStop),
}

impl fmt::Display for TxStop {
    fn fmt<W: fmt::Write>(&self, f: &mut fmt::Formatter<W>) -> fmt::Result {
        match self {
            TxStop::Broken(rule) => write!(f, "{rule} is broken"),
            TxStop::Read(stop) => write!(f, "{stop}"),
        }
    }
}

impl Error for TxStop {}

/// A transaction that is judged, with what is known of it before.
#[derive(Clone, Copy)]
pub struct JudgedTx<'t, 'a> {
    pub tx: &'t TxView<'a>,
    /// Its hash.
    pub hash: [u8; 32],
    /// Whether its id is proposed (J19): that it is, where nothing is asked of a proposal.
    pub proposed: bool,
}

/// What is found of a transaction that keeps J18 to J25: the rows of the cells of its inputs and of its resolved deps, and
/// the places of its header deps.
#[derive(Drop)]
struct Finding {
    spent: Vec<(OutPoint, CellMeta)>,
    named: Vec<(OutPoint, CellMeta)>,
    places: Vec<u32>,
}

/// Copies of the cells of its inputs and of its resolved deps, and what it pays.
#[derive(Drop)]
struct Copying {
    inputs: Vec<Resolved>,
    deps: Vec<Resolved>,
    balance: Balance,
}

/// J18 to J20: the rows of its inputs.
fn spent_rows<C: Cells>(
    alloc: Global,
    tx: &TxView<'_>,
    proposed: bool,
    cells: &C,
) -> Result<Vec<(OutPoint, CellMeta)>, TxStop>
    ensures stops { Stops proposed result }
    ensures by_rows { FollowsRows proposed (C.rows cells.now) tx.now result }
    ensures unread { result ≡ Err (Read DiskFault) → ⊥ }
    ensures undamaged { (damage : Damage) → result ≡ Err (Read (Damaged damage)) → ⊥ }
    ensures judged { (stored : List Stored) (at : AtValue) (site : Site) → IsSiteOf stored at (C.rows cells.now) site → AnswersBy (spending_rules proposed site tx.now) result }
    ensures form { IfOk result (λ _. IsTrue (defs.has_form tx.now)) }
    ensures rows { IfOk result (λ rows. input_rows (C.rows cells.now) tx.now ≡ Some rows.items) }
{
    match has_form(alloc, tx) {
        Ok(true) => {}
        Ok(false) => return Err(TxStop::Broken(Rule::TransactionForm)),
        Err(NoMemory) => return Err(TxStop::Read(ReadStop::NoMemory)),
    }
    if !proposed {
        return Err(TxStop::Broken(Rule::Proposed));
    }
    match are_inputs_distinct(alloc, tx) {
        Ok(true) => {}
        Ok(false) => return Err(TxStop::Broken(Rule::Inputs)),
        Err(NoMemory) => return Err(TxStop::Read(ReadStop::NoMemory)),
    }
    match live_inputs(alloc, tx, cells) {
        Ok(Some(rows)) => Ok(rows),
        Ok(None) => Err(TxStop::Broken(Rule::Inputs)),
        Err(NoMemory) => Err(TxStop::Read(ReadStop::NoMemory)),
    }
}

/// J21 and J22: the rows of its resolved deps, and the places of its header deps.
fn named_rows<C: Cells, B: Blocks>(
    alloc: Global,
    tx: &TxView<'_>,
    at: &TxAt<'_, '_, '_>,
    cells: &C,
    blocks: &mut B,
) -> Result<(Vec<(OutPoint, CellMeta)>, Vec<u32>), TxStop>
    requires placed { IsAtParent at.now }
    requires counts { B.count blocks.old ≡ length at.now.entries }
    ensures read { HasRead B.told B.count B.loans_of B.faults B.damages blocks.old blocks.new (read_stop_of result) }
    ensures later { StopsLater result }
    ensures exact { (stored : List Stored) (site : Site) → B.told blocks.old ≡ Some stored → IsSiteOf stored at.now (C.rows cells.now) site
        → AnswersWith (naming_rules site tx.now) (λ named. AreNamed (blocks_of stored) at.now.parent site tx.now named.0.items named.1.items) result }
    ensures headers { IfOk result (λ named. AllZip (λ hash place. place_of_hash at.now.entries hash ≡ Some place) tx.now.raw.header_deps named.1.items) }
{
    let rows = match resolved_deps(alloc, tx, at, cells, blocks) {
        Ok(Some(rows)) => rows,
        Ok(None) => return Err(TxStop::Broken(Rule::CellDeps)),
        Err(stop) => return Err(TxStop::Read(stop)),
    };
    match header_places(alloc, tx, at) {
        Ok(Some(places)) => Ok((rows, places)),
        Ok(None) => Err(TxStop::Broken(Rule::HeaderDeps)),
        Err(NoMemory) => Err(TxStop::Read(ReadStop::NoMemory)),
    }
}

/// J23 to J25, over the rows of its inputs and its resolved deps. The transaction comes with its hash.
fn try_cells<C: Cells>(
    tx: &TxView<'_>,
    hash: [u8; 32],
    at: &TxAt<'_, '_, '_>,
    cells: &C,
    spent: &[(OutPoint, CellMeta)],
    named: &[(OutPoint, CellMeta)],
) -> Result<(), TxStop>
    requires placed { IsAtParent at.now }
    requires each { length spent.now ≡ length tx.now.raw.inputs }
    requires hash { hash ≡ transaction_hash tx.now }
    ensures later { StopsLater result }
    ensures unread { result ≡ Err (Read DiskFault) → ⊥ }
    ensures judged { (stored : List Stored) (site : Site) → IsSiteOf stored at.now (C.rows cells.now) site
        → spent.now ≡ map (found_row (blocks_of stored) at.now.parent) (inputs site tx.now)
        → named.now ≡ map (found_row (blocks_of stored) at.now.parent) (deps site tx.now) → AnswersBy (using_rules site tx.now) result }
{
    match are_mature(at, spent) {
        Ok(true) => {}
        Ok(false) => return Err(TxStop::Broken(Rule::Maturity)),
        Err(damage) => return Err(TxStop::Read(ReadStop::Damaged(damage))),
    }
    match are_mature(at, named) {
        Ok(true) => {}
        Ok(false) => return Err(TxStop::Broken(Rule::Maturity)),
        Err(damage) => return Err(TxStop::Read(ReadStop::Damaged(damage))),
    }
    match meets_each_since(tx, at, spent) {
        Ok(true) => {}
        Ok(false) => return Err(TxStop::Broken(Rule::Since)),
        Err(damage) => return Err(TxStop::Read(ReadStop::Damaged(damage))),
    }
    if !makes_good_cells(tx, hash, cells) {
        return Err(TxStop::Broken(Rule::Outputs));
    }
    Ok(())
}

/// J26 and J27: what it pays, over copies of the cells of its inputs and the places of its header deps.
fn paid_by(
    alloc: Global,
    tx: &TxView<'_>,
    at: &TxAt<'_, '_, '_>,
    copies: &[Resolved],
    places: &[u32],
) -> Result<Balance, TxStop>
    requires placed { IsAtParent at.now }
    requires each { length copies.now ≡ length tx.now.raw.inputs }
    ensures fits { IfOk result (λ balance. nat_abs balance.interest < 2 ^ 96) }
    ensures later { StopsLater result }
    ensures unread { result ≡ Err (Read DiskFault) → ⊥ }
    ensures exact { (stored : List Stored) (rows : OutPoint → Option Row) (site : Site) → IsSiteOf stored at.now rows site
        → AllZip (Copies (blocks_of stored) at.now.parent) (inputs site tx.now) copies.now
        → places.now ≡ map (slice_index (branch_places (blocks_of stored) at.now.parent)) (heights site tx.now)
        → AnswersWith (paying_rules site tx.now) (Pays site tx.now) result }
{
    match names_deposits(alloc, tx, at, copies, places) {
        Ok(true) => {}
        Ok(false) => return Err(TxStop::Broken(Rule::Withdrawals)),
        Err(stop) => return Err(TxStop::Read(stop)),
    }
    match balance_of(tx, at, copies, places) {
        Ok(Some(balance)) => Ok(balance),
        Ok(None) => Err(TxStop::Broken(Rule::Capacity)),
        Err(damage) => Err(TxStop::Read(ReadStop::Damaged(damage))),
    }
}

/// Takes why a step stopped that reads no kept block, as the source of the blocks takes it: what it finds damaged is found.
fn report<B: Blocks>(blocks: &mut B, stop: TxStop)
    requires later { IsLater stop }
    requires unread { stop ≡ Read DiskFault → ⊥ }
    ensures read { HasRead B.told B.count B.loans_of B.faults B.damages blocks.old blocks.new (read_stop stop) }
{
    match stop {
        TxStop::Broken(_) => {}
        TxStop::Read(stop) => blocks.report(stop),
    }
}

/// J18 to J25, which take no copy of a cell.
fn find<C: Cells, B: Blocks>(
    alloc: Global,
    judged: &JudgedTx<'_, '_>,
    at: &TxAt<'_, '_, '_>,
    cells: &C,
    blocks: &mut B,
) -> Result<Finding, TxStop>
    requires hash { judged.now.hash ≡ transaction_hash judged.now.tx.now }
    requires placed { IsAtParent at.now }
    requires counts { B.count blocks.old ≡ length at.now.entries }
    ensures read { HasRead B.told B.count B.loans_of B.faults B.damages blocks.old blocks.new (read_stop_of result) }
    ensures stops { Stops judged.now.proposed result }
    ensures by_rows { FollowsRows judged.now.proposed (C.rows cells.now) judged.now.tx.now result }
    ensures exact { (stored : List Stored) (site : Site) → B.told blocks.old ≡ Some stored → IsSiteOf stored at.now (C.rows cells.now) site
        → AnswersWith (finding_rules judged.now.proposed site judged.now.tx.now)
        (λ it. AreFound (blocks_of stored) at.now.parent site judged.now.tx.now it.spent.items it.named.items it.places.items) result }
    ensures form { IfOk result (λ _. IsTrue (defs.has_form judged.now.tx.now)) }
    ensures spent { IfOk result (λ it. input_rows (C.rows cells.now) judged.now.tx.now ≡ Some it.spent.items) }
    ensures headers { IfOk result (λ it. AllZip (λ hash place. place_of_hash at.now.entries hash ≡ Some place) judged.now.tx.now.raw.header_deps it.places.items) }
{
    let spent = match spent_rows(alloc, judged.tx, judged.proposed, cells) {
        Ok(spent) => spent,
        Err(stop) => return Err(stop),
    };
    let (named, places) = match named_rows(alloc, judged.tx, at, cells, blocks) {
        Ok(named) => named,
        Err(stop) => return Err(stop),
    };
    match try_cells(judged.tx, judged.hash, at, cells, &spent, &named) {
        Ok(()) => Ok(Finding {
            spent,
            named,
            places,
        }),
        Err(stop) => {
            report(blocks, stop);
            Err(stop)
        }
    }
}

/// J26 and J27, over copies of the cells of its inputs; then copies of those of its resolved deps, for which some may
/// serve that were made before.
fn copy_cells<B: Blocks>(
    alloc: Global,
    tx: &TxView<'_>,
    at: &TxAt<'_, '_, '_>,
    blocks: &mut B,
    finding: &Finding,
    before: Vec<Resolved>,
) -> Result<Copying, TxStop>
    requires placed { IsAtParent at.now }
    requires counts { B.count blocks.old ≡ length at.now.entries }
    requires before { All (ServesAgain (B.told blocks.old) at.now) before.items }
    requires each { length finding.now.spent.items ≡ length tx.now.raw.inputs }
    ensures read { HasRead B.told B.count B.loans_of B.faults B.damages blocks.old blocks.new (read_stop_of result) }
    ensures fits { IfOk result (λ it. nat_abs it.balance.interest < 2 ^ 96) }
    ensures later { StopsLater result }
    ensures exact { (stored : List Stored) (rows : OutPoint → Option Row) (site : Site) → B.told blocks.old ≡ Some stored → IsSiteOf stored at.now rows site
        → AreFound (blocks_of stored) at.now.parent site tx.now finding.now.spent.items finding.now.named.items finding.now.places.items
        → AnswersWith (paying_rules site tx.now)
        (λ it. AreCopied (blocks_of stored) at.now.parent site tx.now it.inputs.items it.deps.items it.balance) result }
    ensures rows { IfOk result (λ it. map row_in it.inputs.items ≡ finding.now.spent.items) }
    ensures outputs { IfOk result (λ it. All HoldsOutput (it.inputs.items ++ it.deps.items)) }
    ensures of_rows { IfOk result (λ it. All (CopiesItsRow (B.told blocks.old) at.now) (it.inputs.items ++ it.deps.items)) }
    ensures again { IfOk result (λ it. All (ServesAgain (B.told blocks.old) at.now) it.deps.items) }
{
    let inputs = match fetch_all(alloc, at, blocks, &finding.spent, Vec::new(alloc)) {
        Ok(inputs) => inputs,
        Err(stop) => return Err(TxStop::Read(stop)),
    };
    let balance = match paid_by(alloc, tx, at, &inputs, &finding.places) {
        Ok(balance) => balance,
        Err(stop) => {
            report(blocks, stop);
            return Err(stop);
        }
    };
    match fetch_all(alloc, at, blocks, &finding.named, before) {
        Ok(deps) => Ok(Copying {
            inputs,
            deps,
            balance,
        }),
        Err(stop) => Err(TxStop::Read(stop)),
    }
}

/// Tries the rules on one transaction in their order. Copies of deps that were made before, for a transaction at the same
/// place and over the same blocks, serve again where one stands in its list at the place of the same cell: that one is not read.
pub fn resolve<'a, C: Cells, B: Blocks>(
    alloc: Global,
    judged: &JudgedTx<'_, 'a>,
    at: &TxAt<'_, '_, '_>,
    cells: &C,
    blocks: &mut B,
    before: Vec<Resolved>,
) -> Result<TxOk<'a>, TxStop>
    requires hash { judged.now.hash ≡ transaction_hash judged.now.tx.now }
    requires placed { IsAtParent at.now }
    requires counts { B.count blocks.old ≡ length at.now.entries }
    requires before { All (ServesAgain (B.told blocks.old) at.now) before.items }
    ensures read { HasRead B.told B.count B.loans_of B.faults B.damages blocks.old blocks.new (read_stop_of result) }
    ensures formed { IfOk result (λ ok. IsFormed at.now.entries judged.now.tx.now ok.resolved) }
    ensures of_rows { IfOk result (λ ok. All (CopiesItsRow (B.told blocks.old) at.now) (ok.resolved.inputs ++ ok.resolved.deps)) }
    ensures again { IfOk result (λ ok. All (ServesAgain (B.told blocks.old) at.now) ok.resolved.deps) }
    ensures tried { (rule : Rule) → result ≡ Err (TxStop.Broken rule) → IsTried judged.now.proposed (rule_number rule) }
    ensures by_rows { FollowsRows judged.now.proposed (C.rows cells.now) judged.now.tx.now result }

    // It has below 2^32 inputs, each of which counts and holds below 2^64 shannons.
    ensures fits { IfOk result (λ ok. nat_abs ok.interest < 2 ^ 96) }

    // Over kept blocks that are known, at the site of the transaction: the first rule that is broken, or what it resolves to. Nothing is damaged.
    ensures exact { (stored : List Stored) (site : Site) → B.told blocks.old ≡ Some stored → IsSiteOf stored at.now (C.rows cells.now) site
        → AnswersWith (rules_to_27 judged.now.proposed site judged.now.tx.now) (ResolvesTo (blocks_of stored) at.now.parent site judged.now.tx.now) result }

    // Over any source: the row of each input is that which the cells have for its out-point.
    ensures rows { IfOk result (λ ok. input_rows (C.rows cells.now) judged.now.tx.now ≡ Some (map row_in ok.resolved.inputs)) }
{
    let found = match find(alloc, judged, at, cells, blocks) {
        Ok(found) => found,
        Err(stop) => return Err(stop),
    };
    let copied = match copy_cells(alloc, judged.tx, at, blocks, &found, before) {
        Ok(copied) => copied,
        Err(stop) => return Err(stop),
    };
    let resolved = ResolvedTx {
        tx: TxView::from_encoding(judged.tx.bytes()),
        hash: judged.hash,
        inputs: copied.inputs,
        deps: copied.deps,
        headers: found.places,
    };
    Ok(TxOk {
        resolved,
        fee: copied.balance.fee,
        interest: copied.balance.interest,
    })
}
