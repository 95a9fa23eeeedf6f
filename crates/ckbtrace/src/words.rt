// The words of the program.
ghost use Rattle.std.specs.Prelude.{◌≤◌, ◌^◌, IfSome};

use run_explanation::{Asked, Wanted};

const BUDGET_LIMIT: u64 = 1 << 40;

/// The budget that a word spells: a number in decimal digits, without a sign and without leading zeros, as of `exec`.
pub(crate) fn budget_of(word: &str) -> Option<u64>
    ensures { IfSome result (λ budget. budget ≤ 2 ^ 40) }
{
    match number_of(word) {
        Some(budget) if budget <= BUDGET_LIMIT => Some(budget),
        _ => None,
    }
}

/// A number in decimal digits, without a sign and without leading zeros.
fn number_of(word: &str) -> Option<u64> {
    if is_padded(word.as_bytes()) {
        return None;
    }
    word.parse::<u64>().ok()
}

/// Whether a word begins with a plus, or with a zero that is not all of it.
fn is_padded(word: &[u8]) -> bool {
    match word {
        [b'+', ..] => true,
        [b'0', _, ..] => true,
        [] => false,
        [_, ..] => false,
    }
}

/// What the words after the folder ask for: `check` or `import`, and after it `--group N` or nothing.
pub(crate) fn wanted_by(words: &[String]) -> Option<Wanted> {
    let (asked, rest) = words.split_first()?;
    let asked = asked_by(asked)?;
    match rest {
        [] => Some(Wanted { asked, group: None }),
        [option, number] => {
            if option.as_str() != "--group" {
                return None;
            }
            let group = u32::try_from(number_of(number)?).ok()?;
            Some(Wanted {
                asked,
                group: Some(group),
            })
        }
        _ => None,
    }
}

fn asked_by(word: &str) -> Option<Asked> {
    match word {
        "check" => Some(Asked::Check),
        "import" => Some(Asked::Import),
        _ => None,
    }
}
