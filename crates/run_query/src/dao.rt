// The query `dao`: what a live cell of the Nervos DAO counts.
ghost use Rattle.std.specs.Prelude.{◌≡◌, ◌==◌, ◌<◌, ◌&&◌, Option, Err, Some, None, length, IfOk, string_bytes, if◌then◌else◌, nat_lt, IsTrue};
ghost use Rattle.std.specs.List.{list_all};
ghost use Rattle.chain_defs.specs.Cell.{Cell, holds_its_own};
ghost use Rattle.chain_defs.specs.Tip.{best_branch};
ghost use Rattle.rule_defs.specs.Withdrawals as rules;
ghost use Rattle.cell_state.specs.Copies.{IsCopyOf};
ghost use Rattle.outside.specs.declared.disk.Damage.{Damage};
ghost use Rattle.outside.specs.declared.disk.ReadStop.TheVariants.{DiskFault, Damaged};
ghost use Rattle.store_defs.specs.Store.{IsJoined};
ghost use Rattle.node_store.specs.Node.{IsOwnDiskWhereTold, IsSoundWhereTold};
ghost use Rattle.run_store.specs.Damage.{AnswersDamage};
ghost use Rattle.report_defs.specs.Report as reports;
ghost use Rattle.report_defs.specs.Queries as answers;
ghost use Rattle.report_defs.specs.Queries.{cell_at_tip};
ghost use Rattle.report_defs.specs.Text as text;
ghost use Rattle.report_defs.specs.declared.command.Query.TheVariants as queries;
ghost use Rattle.report_defs.specs.declared.dao.DaoState.TheVariants as states;
ghost use Rattle.report_defs.specs.Status.{IsOneOf};
ghost use Rattle.run_store.specs.Keeping.{KeepsNode};
ghost use Rattle.run_text.specs.Store.{OnlyReads, finding_stops, opening_stops};
ghost use Rattle.run_query.specs.Queries.{IsCopied, IsCopyFound, IsLiveIn};

use crate::lines::{deposit_line, none_line, not_dao_line, withdrawing_line};
use crate::queries::{line_or_stop, out_point};
use cell_state::Resolved;
use epochs::Spec;
use mol_schema::{OutputView, ScriptView};
use node_store::{Fetched, Node};
use outside::{Disk, ReadStop};
use report_defs::{DaoState, Status};
use run_store::status_of_reading;
use std::alloc::{AllocError, Global};

/// The hash type by which the DAO script is named: that of its type script.
const BY_TYPE: u8 = 1;

/// The line of what the live cell with an out-point counts.
pub fn dao<D: Disk>(
    alloc: Global,
    disk: &mut D,
    node: &mut Node,
    tx_hash: [u8; 32],
    index: u64,
) -> Result<Vec<u8>, Status>
    requires own { IsOwnDiskWhereTold node.old (D.reads_as disk.old) (D.images disk.old) }
    ensures disk { OnlyReads D.content_of D.faults disk.old disk.new (result ≡ Err Status.DiskFault) }
    ensures node { KeepsNode node.old node.new (D.reads_as disk.new) (D.images disk.new) }
    ensures text { IsSoundWhereTold node.old (D.reads_as disk.old) → IfOk result (λ text. text.items ≡ reports.answer_to_query (queries.Dao tx_hash index) node.old.chain) }
    ensures stop { (status : Status) → result ≡ Err status → IsOneOf opening_stops status }
    ensures sound { IsSoundWhereTold node.old (D.reads_as disk.old) → result ≡ Err Status.NotAStore → ⊥ }
    ensures damage { AnswersDamage node.old node.new (result ≡ Err Status.NotAStore) }
{
    let found = match fetch_cell(alloc, disk, node, tx_hash, index) {
        Ok(found) => found,
        Err(status) => return Err(status),
    };
    match found {
        Some(found) => line_of(alloc, node, &found),
        None => line_or_stop(none_line(alloc)),
    }
}

/// The live cell with an out-point, with a copy of its bytes.
fn fetch_cell<D: Disk>(
    alloc: Global,
    disk: &mut D,
    node: &mut Node,
    tx_hash: [u8; 32],
    index: u64,
) -> Result<Option<Fetched>, Status>
    requires own { IsOwnDiskWhereTold node.old (D.reads_as disk.old) (D.images disk.old) }
    ensures disk { OnlyReads D.content_of D.faults disk.old disk.new (result ≡ Err Status.DiskFault) }
    ensures node { KeepsNode node.old node.new (D.reads_as disk.new) (D.images disk.new) }
    ensures chain { node.new.chain ≡ node.old.chain }
    ensures found { IsSoundWhereTold node.old (D.reads_as disk.old) → IfOk result (IsCopyFound (cell_at_tip node.old.chain tx_hash index)) }
    ensures stop { (status : Status) → result ≡ Err status → IsOneOf opening_stops status }
    ensures sound { IsSoundWhereTold node.old (D.reads_as disk.old) → result ≡ Err Status.NotAStore → ⊥ }
    ensures damage { AnswersDamage node.old node.new (result ≡ Err Status.NotAStore) }
{
    let Some(o) = out_point(tx_hash, index) else {
        return Ok(None);
    };
    match node.fetch(alloc, disk, o) {
        Ok(found) => Ok(found),
        Err(stop) => Err(status_of_reading(stop)),
    }
}

/// The line of a live cell.
fn line_of(alloc: Global, node: &Node, found: &Fetched) -> Result<Vec<u8>, Status>
    ensures text { (cell : Cell) → IsJoined node.now.chain → IsLiveIn node.now.chain cell → IsCopied cell found.now
        → IfOk result (λ text. text.items ≡ answers.dao_line node.now.chain.spec (best_branch node.now.chain.blocks) cell) }
    ensures stop { (status : Status) → result ≡ Err status → IsOneOf finding_stops status }
    ensures sound { (cell : Cell) → IsJoined node.now.chain → IsLiveIn node.now.chain cell → IsCopied cell found.now → result ≡ Err Status.NotAStore → ⊥ }
{
    let state = state_of(node.spec(), &found.copy, found.height);
    let amount = match amount_of(node, found, state) {
        Ok(amount) => amount,
        Err(stop) => return Err(status_of_reading(stop)),
    };
    line_or_stop(state_line(alloc, state, found.height, amount))
}

/// What a live cell counts, in shannons, if a u64 holds it; none where it is no cell of the DAO.
fn amount_of(node: &Node, found: &Fetched, state: DaoState) -> Result<Option<u64>, ReadStop>
    ensures amount { (cell : Cell) → IsCopied cell found.now → IfOk result (λ amount. amount
        ≡ answers.dao_amount node.now.chain.spec (best_branch node.now.chain.blocks) cell state) }
    ensures undamaged { (cell : Cell) → IsJoined node.now.chain → IsLiveIn node.now.chain cell → IsCopied cell found.now
        → state ≡ answers.dao_state node.now.chain.spec cell → (damage : Damage) → result ≡ Err (Damaged damage) → ⊥ }
    ensures reads { result ≡ Err DiskFault → ⊥ }
{
    match state {
        DaoState::NotDao => Ok(None),
        DaoState::Deposit => withdrawn(node, found, node.height(), found.height),
        DaoState::Withdrawing { deposit } => withdrawn(node, found, found.height, deposit),
    }
}

/// What a copied cell counts, in shannons, of a deposit at a height and withdrawn at another, if a u64 holds it.
fn withdrawn(node: &Node, found: &Fetched, made: u64, deposit: u64) -> Result<Option<u64>, ReadStop>
    ensures amount { (cell : Cell) → IsCopied cell found.now → IfOk result (λ amount. amount
        ≡ answers.amount_of node.now.chain.spec (best_branch node.now.chain.blocks) (record cell { height = made }) deposit) }
    ensures undamaged { (cell : Cell) → IsCopied cell found.now → IsTrue (holds_its_own cell.output cell.content)
        → made < length (best_branch node.now.chain.blocks) → deposit < length (best_branch node.now.chain.blocks)
        → (damage : Damage) → result ≡ Err (Damaged damage) → ⊥ }
    ensures reads { result ≡ Err DiskFault → ⊥ }
{
    let meta = &found.copy.meta;
    node.counted(meta.capacity, meta.occupied, made, deposit)
}

/// The line of a cell that was made at a height and counts so much.
fn state_line(
    alloc: Global,
    state: DaoState,
    made: u64,
    amount: Option<u64>,
) -> Result<String, AllocError>
    ensures { IfOk result (λ line. string_bytes line ≡ answers.dao_line_of state made amount) }
{
    match state {
        DaoState::NotDao => not_dao_line(alloc),
        DaoState::Deposit => deposit_line(alloc, made, amount),
        DaoState::Withdrawing { deposit } => withdrawing_line(alloc, deposit, made, amount),
    }
}

/// What a cell that was made at a height is to the DAO.
fn state_of(spec: &Spec, copy: &Resolved, made: u64) -> DaoState
    ensures { (cell : Cell) → IsCopyOf cell copy.now → made ≡ cell.height → result ≡ answers.dao_state spec.now cell }
{
    let Some(output) = OutputView::read(&copy.output) else {
        return DaoState::NotDao;
    };
    if !is_dao_script(spec, &output.type_script()) || copy.content.len() != 8 {
        return DaoState::NotDao;
    }
    state_by_data(&copy.content, made)
}

/// What a cell of the DAO is by its 8 bytes of data.
fn state_by_data(content: &[u8], made: u64) -> DaoState
    requires { length content.now ≡ 8 }
    ensures { result ≡ (if list_all (λ b. b == 0) content.now then states.Deposit
        else if nat_lt (answers.height_in content.now) made then states.Withdrawing (answers.height_in content.now) else states.NotDao) }
{
    if are_all_zero(content) {
        return DaoState::Deposit;
    }
    let deposit = height_in(content);
    if deposit < made {
        DaoState::Withdrawing { deposit }
    } else {
        DaoState::NotDao
    }
}

/// The height that 8 bytes of data are.
fn height_in(content: &[u8]) -> u64
    requires { length content.now ≡ 8 }
    ensures { result ≡ answers.height_in content.now }
{
    u64::from_le_bytes([
        content[0], content[1], content[2], content[3], content[4], content[5], content[6],
        content[7],
    ])
}

/// Whether a type script is the DAO's.
fn is_dao_script(spec: &Spec, type_script: &Option<ScriptView<'_>>) -> bool
    ensures { result ≡ rules.is_dao_script spec.now type_script.now }
{
    match type_script {
        None => false,
        Some(script) => {
            script.code_hash() == spec.dao_code_hash.as_slice() && script.hash_type() == BY_TYPE
        }
    }
}

fn are_all_zero(bytes: &[u8]) -> bool
    ensures { result ≡ list_all (λ byte. byte == 0) bytes.now }
{
    bytes.iter().all(|byte| *byte == 0)
}
