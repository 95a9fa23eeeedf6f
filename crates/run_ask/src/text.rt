// The lines of answers.
ghost use Rattle.std.specs.Prelude.{◌≡◌, ◌++◌, map, string_bytes, IfOk, OnOk};
ghost use Rattle.chain_defs.specs.Hashes.{transaction_hash};
ghost use Rattle.ask_defs.specs.Answers as answers;

use json_blocks::to_json;
use mol_schema::BlockView;
use outside::NoMemory;
use run_text::{number_line, push_hash, push_number};
use std::alloc::{AllocError, Global};
use view_hashes::transaction_hashes;

/// Of a line that is no question.
pub fn no_question_line(alloc: Global) -> Result<String, AllocError>
    ensures { IfOk result (λ line. string_bytes line ≡ answers.no_question) }
{
    String::from_str(alloc, "no question\n")
}

/// A block of this number, on the best branch or not.
pub fn branch_line(alloc: Global, best: bool, number: u64) -> Result<String, AllocError>
    ensures { IfOk result (λ line. string_bytes line ≡ answers.branch_line best number) }
{
    if best {
        number_line(alloc, "best ", number)
    } else {
        number_line(alloc, "side ", number)
    }
}

/// The block of this number and hash committed a transaction, at this place.
pub fn committed_line(
    alloc: Global,
    number: u64,
    place: u32,
    hash: &[u8; 32],
) -> Result<String, AllocError>
    ensures { IfOk result (λ line. string_bytes line ≡ answers.committed_line_of number hash.now place) }
{
    let mut line = String::from_str(alloc, "committed ")?;
    push_number(alloc, &mut line, number)?;
    line.push_str(" ")?;
    push_number(alloc, &mut line, u64::from(place))?;
    line.push_str(" ")?;
    push_hash(alloc, &mut line, hash)?;
    line.push_str("\n")?;
    Ok(line)
}

/// Adds a hash as JSON has it.
fn push_quoted(alloc: Global, text: &mut String, hash: &[u8; 32]) -> Result<(), AllocError>
    ensures { OnOk result (string_bytes text.new ≡ string_bytes text.old ++ answers.quoted hash.now) }
{
    text.push_str("\"")?;
    push_hash(alloc, text, hash)?;
    text.push_str("\"")
}

/// Adds hashes that follow another.
fn push_later(alloc: Global, text: &mut String, hashes: &[[u8; 32]]) -> Result<(), AllocError>
    ensures { OnOk result (string_bytes text.new ≡ string_bytes text.old ++ answers.listed_later hashes.now) }
{
    'hashes: for hash in hashes {
        text.push_str(",")?;
        push_quoted(alloc, text, hash)?;
    }
    Ok(())
}

/// Hashes as an array of JSON has them.
fn listed(alloc: Global, hashes: &[[u8; 32]]) -> Result<String, AllocError>
    ensures { IfOk result (λ text. string_bytes text ≡ answers.listed hashes.now) }
{
    let mut text = String::new(alloc);
    let [first, later @ ..] = hashes else {
        return Ok(text);
    };
    push_quoted(alloc, &mut text, first)?;
    push_later(alloc, &mut text, later)?;
    Ok(text)
}

/// A block as `json` has it, and the hashes of its transactions.
pub fn block_line(alloc: Global, block: &BlockView<'_>) -> Result<Vec<u8>, NoMemory>
    ensures { IfOk result (λ line. line.items ≡ answers.block_line block.now) }
{
    let json = to_json(alloc, block)?;
    let hashes = transaction_hashes(alloc, block)?;
    let hashes = listed(alloc, &hashes)?;
    let mut line = Vec::new(alloc);
    line.extend_from_slice(b"{\"block\":")?;
    line.extend_from_slice(&json)?;
    line.extend_from_slice(b",\"hashes\":[")?;
    line.extend_from_slice(hashes.as_bytes())?;
    line.extend_from_slice(b"]}\n")?;
    Ok(line)
}
