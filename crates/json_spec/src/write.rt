// The text of a specification.
ghost use Rattle.std.specs.Prelude.{◌≡◌, ◌+◌, ◌≤◌, length, IfOk};
ghost use Rattle.chain_defs.specs.Specification as rules;
ghost use Rattle.json_defs.specs.Blocks.{text_of};
ghost use Rattle.json_blocks.specs.Text.{PutsTree};
ghost use Rattle.json_spec.specs.Form as form;
ghost use Rattle.json_spec.specs.Bytes.{IsTextOf};

use json_blocks::Text;
use outside::NoMemory;
use std::alloc::Global;

/// More bytes than a text of a specification has.
const TEXT_ROOM: usize = 512;

/// The number of 4 bytes at a place.
fn u32_at(bytes: &[u8], at: usize) -> u32
    requires { at + 4 ≤ length bytes.now }
    ensures { result ≡ rules.u32_field bytes.now at }
{
    u32::from_le_bytes([bytes[at], bytes[at + 1], bytes[at + 2], bytes[at + 3]])
}

/// The number of 8 bytes at a place.
fn u64_at(bytes: &[u8], at: usize) -> u64
    requires { at + 8 ≤ length bytes.now }
    ensures { result ≡ rules.u64_field bytes.now at }
{
    let b = &bytes[at..at + 8];
    u64::from_le_bytes([b[0], b[1], b[2], b[3], b[4], b[5], b[6], b[7]])
}

/// S1: there are 100 bytes, and the size says so.
fn keeps_s1(bytes: &[u8]) -> bool
    ensures { result ≡ rules.keeps_s1 bytes.now }
{
    bytes.len() == 100 && u32_at(bytes, 0) == 100
}

/// Puts the text of the specification that 100 bytes hold.
#[tactic(auto, unfolding(crate::specs::Form::specification, chain_defs::specs::Specification::specification_of))]
fn put_specification(bytes: &[u8], out: &mut Text)
    requires { length bytes.now ≡ 100 }
    ensures { PutsTree out.old out.new (form.specification.tree (rules.specification_of bytes.now)) }
{
    out.number_row(b'{', "compact_target", u32_at(bytes, 4) as u128);
    out.bytes_row(b',', "dao_code_hash", &bytes[68..100]);
    out.number_row(b',', "epoch_length", u32_at(bytes, 8) as u128);
    out.number_row(b',', "halving_interval", u64_at(bytes, 60) as u128);
    out.number_row(b',', "maturity", u64_at(bytes, 36) as u128);
    out.number_row(b',', "max_block_bytes", u32_at(bytes, 20) as u128);
    out.number_row(b',', "max_cycles", u64_at(bytes, 28) as u128);
    out.number_row(b',', "max_proposals", u32_at(bytes, 24) as u128);
    out.number_row(b',', "primary_reward", u64_at(bytes, 44) as u128);
    out.number_row(b',', "secondary_reward", u64_at(bytes, 52) as u128);
    out.number_row(b',', "w_close", u32_at(bytes, 12) as u128);
    out.number_row(b',', "w_far", u32_at(bytes, 16) as u128);
    out.put(b"}")
}

/// The text of the specification that 100 bytes hold.
fn text_in(alloc: Global, bytes: &[u8]) -> Result<Vec<u8>, NoMemory>
    requires { length bytes.now ≡ 100 }
    ensures { IfOk result (λ text. text.items ≡ text_of form.specification (rules.specification_of bytes.now)) }
{
    let mut text = Text::with_capacity(alloc, TEXT_ROOM)?;
    put_specification(bytes, &mut text);
    text.done()
}

/// The compact text of the specification that bytes hold, with no space and no line feed; None where they break S1.
pub fn specification_to_json(alloc: Global, bytes: &[u8]) -> Result<Option<Vec<u8>>, NoMemory>
    ensures { IfOk result (λ text. IsTextOf bytes.now text) }
{
    if !keeps_s1(bytes) {
        return Ok(None);
    }
    Ok(Some(text_in(alloc, bytes)?))
}
