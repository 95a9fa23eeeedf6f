// What surrounds the script of a group, and the run of its code there.
ghost use Rattle.std.specs.Prelude.{◌≡◌, ◌^◌, ◌*◌, ◌<◌, ◌≤◌, List, Some, Err, IfOk, IsSome, slice_get, nat_eq};
ghost use Rattle.std.specs.HashMap.{get};
ghost use Rattle.std.proofs.Props.{props};
ghost use Rattle.outside.specs.declared.disk.Damage.{Damage};
ghost use Rattle.outside.specs.declared.disk.ReadStop.TheVariants.{Damaged};
ghost use Rattle.machine_defs.specs.Program.{execution};
ghost use Rattle.machine_defs.specs.Answer.{syscall};
ghost use Rattle.program_run.specs.Program.{execution_of};
ghost use Rattle.chain_tree.specs.Told.{Stored};
ghost use Rattle.chain_tree.specs.Reading.{HasRead, stop_of};
ghost use Rattle.chain_defs.specs.Schema.{Header, header};
ghost use Rattle.chain_defs.specs.Shape.{IsEncoding};
ghost use Rattle.chain_defs.specs.Epochs.{epoch_number};
ghost use Rattle.script_run.specs.Lookups.{AreRead, bytes_of, header_part};
ghost use Rattle.verdict_defs.specs.Scene.{Scene};
ghost use Rattle.verdict_defs.specs.Items.{items};
ghost use Rattle.script_run.specs.Running.{ExitsWithin};
ghost use Rattle.script_run.specs.Showing.{scene_shown};
ghost use Rattle.script_run.specs.Shown.{HasItsHash};

use crate::bytes::{Answer, Bytes, HeaderPart, Lookup};
use crate::groups::Group;
use crate::items::look_up;
use crate::shown::ShownTx;
use crate::watching::Watcher;
use chain_tree::Blocks;
use mol_schema::{BlockView, HeaderView};
use outside::ReadStop;
use program_run::{Execution, Stopped, execute_in};
use std::alloc::Global;
use std::collections::HashMap;
use vm_sys::{Call, Found, World};

/// The headers that a group's script has asked for, by the places of their blocks: 208 bytes each, so that a block is read
/// once for its header, however often the script asks.
type Headers = HashMap<u32, [u8; 208]>;

/// What surrounds the script of a group.
#[derive(Drop)]
pub(crate) struct GroupWorld<'a, 'w, 'b, B: Blocks> {
    blocks: &'b mut B,
    tx: &'w ShownTx<'a>,
    group: &'w Group<'a>,
    hand: Option<Bytes<'a>>,
    headers: &'b mut Headers,
    ghost counts: { B.count blocks.now ≡ tx.now.kept },
    ghost are_read: { AreRead (B.told blocks.now) (get nat_eq headers.now) } by { Prim.hlevel props },
}

impl<'a, 'w, 'b, B: Blocks> World for GroupWorld<'a, 'w, 'b, B> {
    ghost use Rattle.std.specs.Prelude.{ℕ, List, Option, IsSome};
    ghost use Rattle.std.specs.Option.{option_map};
    ghost use Rattle.chain_tree.specs.Told.{Stored};
    ghost use Rattle.script_run.specs.Lookups.{blocks-known, bytes_of, found_in, known_items};

    ghost told = { λ world. known_items world.tx.now.second world.tx.now.epoch_length world.tx.now.it world.group.now (B.told world.blocks.now) };

    ghost here = { λ world. option_map bytes_of world.hand };

    ghost faults = { λ world. B.faults world.blocks.now };

    ghost damages = { λ world. found_in (B.damages world.blocks.now) };

    ghost last_fault = { λ world. B.last_fault world.blocks.now };

    ghost Loans = { ℕ × B.Loans × Option (List Stored) × ℕ };

    ghost loans_of = { λ world. (world.blocks.ghost_name, B.loans_of world.blocks.now, B.told world.blocks.now, B.count world.blocks.now) };

    // Over blocks that are known.
    ghost IsSound = { λ loans. IsSome loans.2 };

    ghost sound_where_told = { λ world known. blocks-known world.tx.now.second world.tx.now.epoch_length world.tx.now.it world.group.now (B.told world.blocks.now) known };

    fn find(&mut self, call: Call) -> Result<Found, ReadStop> {
        let tx = self.tx;
        match look_up(tx, self.group, &call) {
            Lookup::Answered(answer) => match answer {
                Answer::Here(bytes) => {
                    self.hand = Some(bytes);
                    Ok(Found::Here)
                }
                Answer::NoIndex => Ok(Found::NoIndex),
                Answer::Missing => Ok(Found::Missing),
                Answer::Unknown => Ok(Found::Unknown),
            },
            Lookup::InBlock(place, part) => {
                match read_header(self.blocks, self.headers, place, part, tx.epoch_length) {
                    Ok(bytes) => {
                        self.hand = Some(bytes);
                        Ok(Found::Here)
                    }
                    Err(stop) => Err(stop),
                }
            }
        }
    }

    fn bytes(&self) -> &[u8] {
        match &self.hand {
            Some(bytes) => bytes.as_slice(),
            None => &[],
        }
    }
}

/// Reads a part of the header of the block at a place.
fn read_header<'a, B: Blocks>(
    blocks: &mut B,
    headers: &mut Headers,
    place: u32,
    part: HeaderPart,
    epoch_length: u32,
) -> Result<Bytes<'a>, ReadStop>
    requires within { place < B.count blocks.old }
    requires are_read { AreRead (B.told blocks.old) (get nat_eq headers.old) }
    ensures read { HasRead B.told B.count B.loans_of B.faults B.damages blocks.old blocks.new (stop_of result) }
    ensures are_read { AreRead (B.told blocks.new) (get nat_eq headers.new) }
    ensures part { (stored : List Stored) (made : Stored) → B.told blocks.old ≡ Some stored → slice_get stored place ≡ Some made
        → IfOk result (λ bytes. bytes_of bytes ≡ header_part epoch_length part made.block.header) }
    ensures undamaged { IsSome (B.told blocks.old) → (damage : Damage) → result ≡ Err (Damaged damage) → ⊥ }
{
    match header_at(blocks, headers, place) {
        Ok(bytes) => Ok(part_of(bytes, part, epoch_length)),
        Err(stop) => Err(stop),
    }
}

/// The bytes of the header of the block at a place, which is read where they are not there yet.
fn header_at<B: Blocks>(
    blocks: &mut B,
    headers: &mut Headers,
    place: u32,
) -> Result<[u8; 208], ReadStop>
    requires within { place < B.count blocks.old }
    requires are_read { AreRead (B.told blocks.old) (get nat_eq headers.old) }
    ensures read { HasRead B.told B.count B.loans_of B.faults B.damages blocks.old blocks.new (stop_of result) }
    ensures are_read { AreRead (B.told blocks.new) (get nat_eq headers.new) }
    ensures header { (stored : List Stored) (made : Stored) → B.told blocks.old ≡ Some stored → slice_get stored place ≡ Some made
        → IfOk result (λ bytes. IsEncoding header bytes made.block.header) }
    ensures undamaged { IsSome (B.told blocks.old) → (damage : Damage) → result ≡ Err (Damaged damage) → ⊥ }
{
    if let Some(bytes) = headers.get(&place) {
        return Ok(*bytes);
    }
    match blocks.bring(place) {
        Ok(()) => {}
        Err(stop) => return Err(stop),
    }
    let bytes = header_of(&blocks.block());
    match headers.insert(place, bytes) {
        Ok(_) => Ok(bytes),
        Err(_) => Err(ReadStop::NoMemory),
    }
}

/// The bytes of a block's header.
fn header_of(block: &BlockView<'_>) -> [u8; 208]
    ensures { IsEncoding header result block.now.header }
{
    let mut bytes = [0u8; 208];
    bytes.copy_from_slice(block.header().bytes());
    bytes
}

/// A part of a header that is encoded.
fn part_of<'a>(bytes: [u8; 208], part: HeaderPart, epoch_length: u32) -> Bytes<'a>
    ensures { (h : Header) → IsEncoding header bytes h → bytes_of result ≡ header_part epoch_length part h }
{
    match part {
        HeaderPart::Whole => Bytes::Header(bytes),
        HeaderPart::EpochNumber => {
            Bytes::Number(epoch_of(number_in(&bytes), epoch_length).to_le_bytes())
        }
        HeaderPart::EpochStart => {
            let epoch = epoch_of(number_in(&bytes), epoch_length);
            Bytes::Number((epoch * u64::from(epoch_length)).to_le_bytes())
        }
        HeaderPart::EpochLength => Bytes::Number(u64::from(epoch_length).to_le_bytes()),
    }
}

/// The number of a header that is encoded.
fn number_in(bytes: &[u8; 208]) -> u64
    ensures { (h : Header) → IsEncoding header bytes.now h → result ≡ h.number }
{
    HeaderView::from_encoding(bytes).number()
}

fn epoch_of(number: u64, epoch_length: u32) -> u64
    ensures value { result ≡ epoch_number epoch_length number }
    ensures start { result * epoch_length ≤ number }
{
    if epoch_length == 0 {
        0
    } else {
        number / u64::from(epoch_length)
    }
}

/// Runs the code of a group within a budget in cycles, over what the group is shown.
pub(crate) fn run_code<'a, 'w, B: Blocks>(
    alloc: Global,
    tx: &'w ShownTx<'a>,
    group: &'w Group<'a>,
    blocks: &mut B,
    code: &[u8],
    budget: u64,
) -> Result<Execution, ReadStop>
    requires budget { budget ≤ 2 ^ 40 }
    requires counts { B.count blocks.old ≡ tx.now.kept }
    ensures read { HasRead B.told B.count B.loans_of B.faults B.damages blocks.old blocks.new (stop_of result) }
    ensures came { (stored : List Stored) (scene : Scene) → B.told blocks.old ≡ Some stored → scene_shown tx.now.second tx.now.epoch_length stored tx.now.it ≡ Some scene
        → HasItsHash group.now → IfOk result (λ came. execution_of came ≡ execution (syscall (items scene group.now.group)) budget code.now) }
    ensures within { IfOk result (ExitsWithin budget) }
    ensures undamaged { IsSome (B.told blocks.old) → (damage : Damage) → result ≡ Err (Damaged damage) → ⊥ }
{
    let mut headers = HashMap::new(alloc);
    let mut world = GroupWorld {
        blocks,
        tx,
        group,
        hand: None,
        headers: &mut headers,
    };
    let came = execute_in(alloc, code, budget, &mut world);
    give_back(world);
    match came {
        Ok(came) => Ok(came),
        Err(Stopped::Loading) => Err(ReadStop::NoMemory),
        Err(Stopped::Running(stop)) => Err(stop),
    }
}

/// Runs the code of a group by a watcher, over what the group is shown.
pub(crate) fn watch_code<'a, 'w, B: Blocks, R: Watcher>(
    alloc: Global,
    tx: &'w ShownTx<'a>,
    group: &'w Group<'a>,
    blocks: &mut B,
    watcher: &mut R,
    code: &[u8],
    budget: u64,
) -> Result<Execution, ReadStop>
    requires budget { budget ≤ 2 ^ 40 }
    requires counts { B.count blocks.old ≡ tx.now.kept }
    ensures read { HasRead B.told B.count B.loans_of B.faults B.damages blocks.old blocks.new (stop_of result) }
{
    let mut headers = HashMap::new(alloc);
    let mut world = GroupWorld {
        blocks,
        tx,
        group,
        hand: None,
        headers: &mut headers,
    };
    let came = watcher.run(alloc, code, budget, &mut world);
    give_back(world);
    came
}

/// Ends the loan of the blocks: they are as the world leaves them.
fn give_back<'a, 'w, 'b, B: Blocks>(world: GroupWorld<'a, 'w, 'b, B>)
    ensures { world.exit.0.now ≡ world.entry.blocks.now }
{}
