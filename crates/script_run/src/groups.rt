// Script groups (RFC 0022, "Script Group").
ghost use Rattle.std.specs.Prelude.{◌≡◌, ◌^◌, ◌<◌, ◌++◌, ◌∷◌, [], IsTrue, List, Option, Some, length, map, IfOk, OnOk};
ghost use Rattle.std.specs.List.{All, AllZip};
ghost use Rattle.std.specs.Option.{option_map};
ghost use Rattle.chain_defs.specs.Schema.{Script};
ghost use Rattle.chain_defs.specs.Cell.{script_hash};
ghost use Rattle.verdict_defs.specs.Groups as defs;
ghost use Rattle.verdict_defs.specs.Scene.{Scene, ShownCell};
ghost use Rattle.script_run.specs.Fitting.{is_typed};
ghost use Rattle.script_run.specs.Grouping.{FindsEachGroup, grouped, with_group, with_input, with_output, changed, place_with};
ghost use Rattle.script_run.specs.Shown.{HasItsHash, IsShownAs, Shows, output_rows};

use crate::fitting::output_of;
use crate::shown::{ShownTx, output_at};
use cell_state::{CellMeta, Resolved};
use mol_schema::{OutputView, ScriptView, TxView};
use outside::NoMemory;
use std::alloc::Global;
use std::collections::HashMap;
use std::marker::Model;

/// A script group: its script with the script's hash, and the places of its members among the inputs and among the
/// outputs of the transaction.
#[derive(Drop)]
pub struct Group<'a> {
    pub script: ScriptView<'a>,
    pub hash: [u8; 32],
    pub inputs: Vec<u32>,
    pub outputs: Vec<u32>,
}

impl<'a> Model for Group<'a> {
    ghost use Rattle.script_run.specs.Shown.{GroupValue};

    ghost Value = { GroupValue };

    ghost view = { λ it. record { group = record { script = it.script; inputs = it.inputs.items; outputs = it.outputs.items }; hash = it.hash } };
}

/// The type script of an output, with its hash.
fn typed<'a>(output: &OutputView<'a>, hash: Option<[u8; 32]>) -> Option<(ScriptView<'a>, [u8; 32])>
    ensures { hash ≡ option_map script_hash output.now.type_script → result ≡ option_map (λ s. (s, script_hash s)) output.now.type_script }
{
    Some((output.type_script()?, hash?))
}

/// Groups that are being made, and the place of each by the hash of its script.
#[derive(Drop)]
struct Grouping<'a> {
    groups: Vec<Group<'a>>,
    places: HashMap<[u8; 32], usize>,
}

impl<'a> Grouping<'a> {
    fn new(alloc: Global) -> Grouping<'a>
        ensures known { FindsEachGroup result.places.entries result.groups.items }
        ensures groups { result.groups.items ≡ [] }
    {
        Grouping {
            groups: Vec::new(alloc),
            places: HashMap::new(alloc),
        }
    }

    /// The place of the group of a script. Where there is none, it is made, at the end.
    fn place_of(
        &mut self,
        alloc: Global,
        script: ScriptView<'a>,
        hash: [u8; 32],
    ) -> Result<usize, NoMemory>
        requires known { FindsEachGroup self.old.places.entries self.old.groups.items }
        ensures known { OnOk result (FindsEachGroup self.new.places.entries self.new.groups.items) }
        ensures groups { OnOk result (self.new.groups.items ≡ with_group hash script.entry self.old.groups.items) }
        ensures place { IfOk result (λ place. place_with hash 0 self.new.groups.items ≡ Some place) }
    {
        if let Some(place) = self.places.get(&hash) {
            return Ok(*place);
        }
        let place = self.groups.len();
        self.places.insert(hash, place)?;
        self.groups.push(Group {
            script,
            hash,
            inputs: Vec::new(alloc),
            outputs: Vec::new(alloc),
        })?;
        Ok(place)
    }

    fn add_input(
        &mut self,
        alloc: Global,
        script: ScriptView<'a>,
        hash: [u8; 32],
        input: u32,
    ) -> Result<(), NoMemory>
        requires known { FindsEachGroup self.old.places.entries self.old.groups.items }
        ensures known { OnOk result (FindsEachGroup self.new.places.entries self.new.groups.items) }
        ensures groups { OnOk result (self.new.groups.items ≡ changed (with_input input) hash (with_group hash script.entry self.old.groups.items)) }
    {
        let place = self.place_of(alloc, script, hash)?;
        let group = &mut self.groups[place];
        group.inputs.push(input)?;
        Ok(())
    }

    fn add_output(
        &mut self,
        alloc: Global,
        script: ScriptView<'a>,
        hash: [u8; 32],
        output: u32,
    ) -> Result<(), NoMemory>
        requires known { FindsEachGroup self.old.places.entries self.old.groups.items }
        ensures known { OnOk result (FindsEachGroup self.new.places.entries self.new.groups.items) }
        ensures groups { OnOk result (self.new.groups.items ≡ changed (with_output output) hash (with_group hash script.entry self.old.groups.items)) }
    {
        let place = self.place_of(alloc, script, hash)?;
        let group = &mut self.groups[place];
        group.outputs.push(output)?;
        Ok(())
    }

    /// Adds an input to the group of its lock.
    fn join_lock(&mut self, alloc: Global, copy: &'a Resolved, input: u32) -> Result<(), NoMemory>
        requires typed { IsTrue (is_typed copy.now) }
        requires known { FindsEachGroup self.old.places.entries self.old.groups.items }
        ensures known { OnOk result (FindsEachGroup self.new.places.entries self.new.groups.items) }
        ensures groups { (cell : ShownCell) (before : List (Option Script)) → IsShownAs copy.now cell → self.old.groups.items ≡ grouped before []
            → input ≡ length before → OnOk result (self.new.groups.items ≡ grouped (before ++ Some cell.output.lock ∷ []) []) }
    {
        let meta = &copy.meta;
        self.add_input(alloc, output_of(copy).lock(), meta.lock_hash, input)?;
        Ok(())
    }

    /// Adds an input to the group of its type script, where it has one.
    fn join_type(&mut self, alloc: Global, copy: &'a Resolved, input: u32) -> Result<(), NoMemory>
        requires typed { IsTrue (is_typed copy.now) }
        requires known { FindsEachGroup self.old.places.entries self.old.groups.items }
        ensures known { OnOk result (FindsEachGroup self.new.places.entries self.new.groups.items) }
        ensures groups { (cell : ShownCell) (before : List (Option Script)) → IsShownAs copy.now cell → self.old.groups.items ≡ grouped before []
            → input ≡ length before → OnOk result (self.new.groups.items ≡ grouped (before ++ cell.output.type_script ∷ []) []) }
    {
        let meta = &copy.meta;
        match typed(&output_of(copy), meta.type_hash) {
            None => Ok(()),
            Some(found) => {
                let (script, hash) = found;
                match self.add_input(alloc, script, hash, input) {
                    Ok(()) => Ok(()),
                    Err(stop) => Err(stop),
                }
            }
        }
    }

    /// Adds an output to the group of its type script, where it has one.
    fn join_output(
        &mut self,
        alloc: Global,
        made: &OutputView<'a>,
        row: &CellMeta,
        output: u32,
    ) -> Result<(), NoMemory>
        requires known { FindsEachGroup self.old.places.entries self.old.groups.items }
        requires hash { row.now.type_hash ≡ option_map script_hash made.now.type_script }
        ensures known { OnOk result (FindsEachGroup self.new.places.entries self.new.groups.items) }
        ensures groups { (inputs before : List (Option Script)) → self.old.groups.items ≡ grouped inputs before
            → output ≡ length before → OnOk result (self.new.groups.items ≡ grouped inputs (before ++ made.now.type_script ∷ [])) }
    {
        match typed(made, row.type_hash) {
            None => Ok(()),
            Some(found) => {
                let (script, hash) = found;
                match self.add_output(alloc, script, hash, output) {
                    Ok(()) => Ok(()),
                    Err(stop) => Err(stop),
                }
            }
        }
    }

    /// Adds each output of a transaction to the group of its type script.
    fn join_outputs(
        &mut self,
        alloc: Global,
        tx: &TxView<'a>,
        rows: &[CellMeta],
    ) -> Result<(), NoMemory>
        requires known { FindsEachGroup self.old.places.entries self.old.groups.items }
        requires rows { rows.now ≡ output_rows tx.now }
        ensures groups { (inputs : List (Option Script)) → self.old.groups.items ≡ grouped inputs []
            → OnOk result (self.new.groups.items ≡ grouped inputs (map (λ output. output.type_script) tx.now.raw.outputs)) }
    {
        'outputs: for i in 0..tx.raw().outputs_count() {
            self.join_output(alloc, &output_at(tx, i), &rows[i], i as u32)?;
        }
        Ok(())
    }
}

/// The groups of locks.
fn lock_groups<'a>(alloc: Global, copies: &'a [Resolved]) -> Result<Vec<Group<'a>>, NoMemory>
    requires fits { length copies.now < 2 ^ 32 }
    requires typed { All (λ copy. IsTrue (is_typed copy)) copies.now }
    ensures groups { (cells : List ShownCell) → AllZip IsShownAs copies.now cells
        → IfOk result (λ list. list.items ≡ grouped (map (λ cell. Some cell.output.lock) cells) []) }
{
    let mut grouping = Grouping::new(alloc);
    'inputs: for i in 0..copies.len() {
        grouping.join_lock(alloc, &copies[i], i as u32)?;
    }
    Ok(grouping.groups)
}

/// The groups of the type scripts of inputs.
fn types_of_inputs<'a>(alloc: Global, copies: &'a [Resolved]) -> Result<Grouping<'a>, NoMemory>
    requires fits { length copies.now < 2 ^ 32 }
    requires typed { All (λ copy. IsTrue (is_typed copy)) copies.now }
    ensures known { IfOk result (λ it. FindsEachGroup it.places.entries it.groups.items) }
    ensures groups { (cells : List ShownCell) → AllZip IsShownAs copies.now cells
        → IfOk result (λ it. it.groups.items ≡ grouped (map (λ cell. cell.output.type_script) cells) []) }
{
    let mut grouping = Grouping::new(alloc);
    'inputs: for i in 0..copies.len() {
        grouping.join_type(alloc, &copies[i], i as u32)?;
    }
    Ok(grouping)
}

/// The groups of type scripts.
fn type_groups<'a>(alloc: Global, tx: &'a ShownTx<'a>) -> Result<Vec<Group<'a>>, NoMemory>
    ensures groups { (cells : List ShownCell) → AllZip IsShownAs tx.now.it.inputs cells
        → IfOk result (λ list. list.items ≡ grouped (map (λ cell. cell.output.type_script) cells) (map (λ output. output.type_script) tx.now.it.tx.raw.outputs)) }
{
    let it = tx.it;
    let mut grouping = types_of_inputs(alloc, &it.inputs)?;
    grouping.join_outputs(alloc, &it.tx, &tx.outputs)?;
    Ok(grouping.groups)
}

/// Two lists of groups, one after the other. More than a `u32` counts are taken for want of memory.
fn both<'a>(
    mut first: Vec<Group<'a>>,
    mut second: Vec<Group<'a>>,
) -> Result<Vec<Group<'a>>, NoMemory>
    ensures items { IfOk result (λ list. list.items ≡ first.entry.items ++ second.entry.items) }
    ensures few { IfOk result (λ list. length list.items < 2 ^ 32) }
{
    first.append(&mut second)?;
    if first.len() > u32::MAX as usize {
        return Err(NoMemory);
    }
    Ok(first)
}

/// The groups of a transaction, those of locks first.
pub(crate) fn groups_of<'a>(alloc: Global, tx: &'a ShownTx<'a>) -> Result<Vec<Group<'a>>, NoMemory>
    ensures groups { (scene : Scene) → Shows tx.now.it scene → IfOk result (λ list. map (λ it. it.group) list.items ≡ defs.groups_of scene) }
    ensures hashes { (scene : Scene) → Shows tx.now.it scene → IfOk result (λ list. All HasItsHash list.items) }
    ensures few { IfOk result (λ list. length list.items < 2 ^ 32) }
{
    let it = tx.it;
    let locks = lock_groups(alloc, &it.inputs)?;
    let types = type_groups(alloc, tx)?;
    let list = both(locks, types)?;
    Ok(list)
}
