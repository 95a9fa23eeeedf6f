// The line of an item.
ghost use Rattle.std.specs.Prelude.{◌≡◌, ◌++◌, codes, string_bytes, IfOk, OnOk};
ghost use Rattle.std.specs.Fmt.{decimal};
ghost use Rattle.report_defs.specs.Text as text;

use run_text::{push_hash, push_number, push_total};
use std::alloc::{AllocError, Global};
use verdict_defs::Verdict;

/// Adds what is said of a block that joined.
fn push_joined(
    alloc: Global,
    line: &mut String,
    number: u64,
    hash: &[u8; 32],
) -> Result<(), AllocError>
    ensures { OnOk result (string_bytes line.new
        ≡ string_bytes line.old ++ codes "joined " ++ decimal number ++ codes " " ++ text.hash_text hash.now) }
{
    line.push_str("joined ")?;
    push_number(alloc, line, number)?;
    line.push_str(" ")?;
    push_hash(alloc, line, hash)
}

/// Adds what is said of a block that is known.
fn push_known(alloc: Global, line: &mut String, hash: &[u8; 32]) -> Result<(), AllocError>
    ensures { OnOk result (string_bytes line.new ≡ string_bytes line.old ++ codes "known " ++ text.hash_text hash.now) }
{
    line.push_str("known ")?;
    push_hash(alloc, line, hash)
}

/// Adds what is said of an item that breaks a rule.
fn push_refused(alloc: Global, line: &mut String, rule: u8) -> Result<(), AllocError>
    ensures { OnOk result (string_bytes line.new ≡ string_bytes line.old ++ codes "refused J" ++ decimal rule) }
{
    line.push_str("refused J")?;
    push_number(alloc, line, u64::from(rule))
}

/// Adds what is said of an item.
fn push_verdict(alloc: Global, line: &mut String, verdict: &Verdict) -> Result<(), AllocError>
    ensures { OnOk result (string_bytes line.new ≡ string_bytes line.old ++ text.verdict_text verdict.now) }
{
    match verdict {
        Verdict::Joined(number, hash) => push_joined(alloc, line, *number, hash),
        Verdict::Known(hash) => push_known(alloc, line, hash),
        Verdict::Refused(rule) => push_refused(alloc, line, *rule),
        Verdict::Full => line.push_str("full"),
    }
}

/// Adds the balance of a lock that is watched.
fn push_balance(
    alloc: Global,
    line: &mut String,
    balance: Option<(u64, u128)>,
) -> Result<(), AllocError>
    ensures { OnOk result (string_bytes line.new ≡ string_bytes line.old ++ text.balance_text balance) }
{
    match balance {
        None => Ok(()),
        Some((count, capacity)) => {
            line.push_str(" balance ")?;
            push_total(alloc, line, count, capacity)
        }
    }
}

/// The line of an item that was imported, with the balance of a lock that is watched.
pub fn item_line(
    alloc: Global,
    verdict: &Verdict,
    balance: Option<(u64, u128)>,
) -> Result<String, AllocError>
    ensures { IfOk result (λ line. string_bytes line ≡ text.line verdict.now balance) }
{
    let mut line = String::new(alloc);
    push_verdict(alloc, &mut line, verdict)?;
    push_balance(alloc, &mut line, balance)?;
    line.push_str("\n")?;
    Ok(line)
}
