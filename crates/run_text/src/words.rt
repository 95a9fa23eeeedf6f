// The grammar of a run's words.
ghost use Rattle.std.specs.Prelude.{◌≡◌, ◌≤◌, [], ◌∷◌, map, string_bytes, Some, IfSome};
ghost use Rattle.std.specs.Option.{option_map};
ghost use Rattle.std.specs.Str.{bytes_eq};
ghost use Rattle.report_defs.specs.Text as text;
ghost use Rattle.report_defs.specs.declared.command.Command.TheVariants as commands;
ghost use Rattle.report_defs.specs.declared.command.Query.TheVariants as queries;
ghost use Rattle.report_defs.specs.declared.command.Standalone.TheVariants as files;
ghost use Rattle.report_defs.specs.declared.command.Simulation.TheVariants as simulations;
ghost use Rattle.report_defs.specs.Words as grammar;
ghost use Rattle.run_text.specs.Words as parts;
ghost use Rattle.run_text.specs.Words.{IsWithinLimit};

use report_defs::{Command, Query, Question, Simulation, Standalone};

/// The most cycles of a budget.
const BUDGET_LIMIT: u64 = 1 << 40;

/// The most generated blocks.
const MADE_LIMIT: u64 = 20_000;

/// The most generated blocks that are imported again and again.
const SOAK_LIMIT: u64 = 100;

/// What the words ask for, if they are in the grammar.
pub fn command_of(words: &[String]) -> Option<Command>
    ensures command { result ≡ grammar.command_of (map string_bytes words.now) }
    ensures within { IfSome result IsWithinLimit }
{
    let [folder, name, arguments @ ..] = words else {
        return None;
    };
    if folder.is_empty() {
        return None;
    }
    command_named(name.as_bytes(), arguments)
}

fn command_named(name: &[u8], arguments: &[String]) -> Option<Command>
    ensures command { result ≡ grammar.command_named (name.now ∷ map string_bytes arguments.now) }
    ensures within { IfSome result IsWithinLimit }
{
    match arguments {
        [] => command_alone(name),
        [argument] => command_with(name, argument.as_str()),
        [first, second] => command_at(name, first.as_str(), second.as_str()),
        [_, _, _, ..] => None,
    }
}

/// The command of this name that takes no argument.
pub fn command_alone(name: &[u8]) -> Option<Command>
    ensures command { result ≡ grammar.command_named (name.now ∷ []) }
    ensures within { IfSome result IsWithinLimit }
{
    if name == b"init".as_slice() {
        return Some(Command::Init);
    }
    if name == b"import".as_slice() {
        return Some(Command::Import { watched: None });
    }
    if name == b"tip".as_slice() {
        return Some(Command::Query(Query::Tip));
    }
    if name == b"epoch".as_slice() {
        return Some(Command::Query(Query::Epoch));
    }
    if name == b"audit".as_slice() {
        return Some(Command::Query(Query::Audit));
    }
    if name == b"check".as_slice() {
        return Some(Command::Question(Question::Check));
    }
    if name == b"assemble".as_slice() {
        return Some(Command::Question(Question::Assemble));
    }
    if name == b"asm".as_slice() {
        return Some(Command::Standalone(Standalone::Asm));
    }
    if name == b"dis".as_slice() {
        return Some(Command::Standalone(Standalone::Dis));
    }
    if name == b"unjson".as_slice() {
        return Some(Command::Standalone(Standalone::Unjson));
    }
    None
}

/// The command of this name that takes one argument.
pub fn command_with(name: &[u8], argument: &str) -> Option<Command>
    ensures command { result ≡ grammar.command_with name.now argument.now }
    ensures within { IfSome result IsWithinLimit }
{
    if name == b"exec".as_slice() {
        return exec_command(argument);
    }
    if name == b"header".as_slice() {
        return header_command(argument);
    }
    if name == b"json".as_slice() {
        return json_command(argument);
    }
    if name == b"migrate".as_slice() {
        return migrate_command(argument);
    }
    if name == b"watch".as_slice() {
        return watch_command(argument);
    }
    if name == b"list".as_slice() {
        return list_command(argument);
    }
    None
}

/// `exec` and its budget.
#[tactic(auto, unfolding(report_defs::specs::Words::budget_limit))]
fn exec_command(argument: &str) -> Option<Command>
    ensures command { result ≡ option_map (λ budget. commands.Standalone (files.Exec budget)) (grammar.number_up_to grammar.budget_limit argument.now) }
    ensures within { IfSome result IsWithinLimit }
{
    let budget = number_up_to(BUDGET_LIMIT, argument)?;
    Some(Command::Standalone(Standalone::Exec { budget }))
}

/// `header` and a height.
fn header_command(argument: &str) -> Option<Command>
    ensures command { result ≡ option_map (λ height. commands.Query (queries.Header height)) (grammar.number_up_to grammar.number_limit argument.now) }
    ensures within { IfSome result IsWithinLimit }
{
    let height = number_of(argument)?;
    Some(Command::Query(Query::Header { height }))
}

/// `json` and a height.
fn json_command(argument: &str) -> Option<Command>
    ensures command { result ≡ option_map (λ height. commands.Query (queries.Json height)) (grammar.number_up_to grammar.number_limit argument.now) }
    ensures within { IfSome result IsWithinLimit }
{
    let height = number_of(argument)?;
    Some(Command::Query(Query::Json { height }))
}

/// `migrate` and an epoch.
fn migrate_command(argument: &str) -> Option<Command>
    ensures command { result ≡ option_map (λ epoch. commands.Migrate epoch) (grammar.number_up_to grammar.number_limit argument.now) }
    ensures within { IfSome result IsWithinLimit }
{
    let epoch = number_of(argument)?;
    Some(Command::Migrate { epoch })
}

/// `watch` and the hash of a lock.
fn watch_command(argument: &str) -> Option<Command>
    ensures command { result ≡ option_map (λ lock. commands.Import (Some lock)) (grammar.hash_of_word argument.now) }
    ensures within { IfSome result IsWithinLimit }
{
    let lock = hash_of_word(argument)?;
    Some(Command::Import {
        watched: Some(lock),
    })
}

/// `list` and the hash of a lock.
fn list_command(argument: &str) -> Option<Command>
    ensures command { result ≡ option_map (λ lock. commands.Query (queries.Cells lock)) (grammar.hash_of_word argument.now) }
    ensures within { IfSome result IsWithinLimit }
{
    let lock = hash_of_word(argument)?;
    Some(Command::Query(Query::Cells { lock }))
}

/// The command of this name that takes two arguments.
pub fn command_at(name: &[u8], first: &str, second: &str) -> Option<Command>
    ensures command { result ≡ grammar.command_at name.now first.now second.now }
    ensures within { IfSome result IsWithinLimit }
{
    if name == b"cell".as_slice() {
        let (tx_hash, index) = out_point_of(first, second)?;
        return Some(Command::Query(Query::Cell { tx_hash, index }));
    }
    if name == b"dao".as_slice() {
        let (tx_hash, index) = out_point_of(first, second)?;
        return Some(Command::Query(Query::Dao { tx_hash, index }));
    }
    if name == b"make".as_slice() {
        return make_command(first, second);
    }
    if name == b"soak".as_slice() {
        return soak_command(first, second);
    }
    None
}

/// `make`, a seed and a count.
#[tactic(auto, unfolding(report_defs::specs::Words::made_limit))]
fn make_command(seed: &str, count: &str) -> Option<Command>
    ensures command { result ≡ option_map (λ made. commands.Simulation (simulations.Make made.0 made.1)) (grammar.made_of grammar.made_limit seed.now count.now) }
    ensures within { IfSome result IsWithinLimit }
{
    let seed = number_of(seed)?;
    let count = number_up_to(MADE_LIMIT, count)?;
    Some(Command::Simulation(Simulation::Make {
        seed,
        count: count as u32,
    }))
}

/// `soak`, a seed and a count.
#[tactic(auto, unfolding(report_defs::specs::Words::soak_limit))]
fn soak_command(seed: &str, count: &str) -> Option<Command>
    ensures command { result ≡ option_map (λ made. commands.Simulation (simulations.Soak made.0 made.1)) (grammar.made_of grammar.soak_limit seed.now count.now) }
    ensures within { IfSome result IsWithinLimit }
{
    let seed = number_of(seed)?;
    let count = number_up_to(SOAK_LIMIT, count)?;
    Some(Command::Simulation(Simulation::Soak {
        seed,
        count: count as u32,
    }))
}

/// The hash of a transaction and an index.
fn out_point_of(hash: &str, index: &str) -> Option<([u8; 32], u64)>
    ensures { result ≡ grammar.out_point_of hash.now index.now }
{
    let tx_hash = hash_of_word(hash)?;
    let number = number_of(index)?;
    Some((tx_hash, number))
}

/// The hash that a word spells. Only digits in lower case do, though both cases are read.
#[tactic(auto, unfolding(report_defs::specs::Words::hash_of_word))]
pub fn hash_of_word(word: &str) -> Option<[u8; 32]>
    ensures { result ≡ grammar.hash_of_word word.now }
{
    let bytes = word.as_bytes();
    let digits = if bytes.len() < 2 { &[] } else { &bytes[2..] };
    let mut hash = [0u8; 32];
    if hex::decode_to_slice(digits, &mut hash).is_err() {
        return None;
    }
    if is_text_of(bytes, &hash) {
        Some(hash)
    } else {
        None
    }
}

/// Whether a word is the text of a hash.
fn is_text_of(word: &[u8], hash: &[u8; 32]) -> bool
    ensures { result ≡ bytes_eq word.now (text.hash_text hash.now) }
{
    let mut digits = [0u8; 64];
    let encoded: Result<_, _> = hex::encode_to_slice(hash, &mut digits);
    encoded.unwrap();
    match word {
        [b'0', b'x', rest @ ..] => rest == digits.as_slice(),
        _ => false,
    }
}

/// The number of eight bytes that a word spells.
#[tactic(auto, unfolding(report_defs::specs::Words::number_limit))]
fn number_of(word: &str) -> Option<u64>
    ensures { result ≡ grammar.number_up_to grammar.number_limit word.now }
{
    number_up_to(u64::MAX, word)
}

/// The number that a word spells, if it is within the limit.
fn number_up_to(limit: u64, word: &str) -> Option<u64>
    ensures number { result ≡ grammar.number_up_to limit word.now }
    ensures within { IfSome result (λ number. number ≤ limit) }
{
    if is_padded(word.as_bytes()) {
        return None;
    }
    let number = match word.parse::<u64>() {
        Ok(number) => number,
        Err(_) => return None,
    };
    if number > limit {
        return None;
    }
    Some(number)
}

/// Whether a word begins with a plus, or with a zero that is not all of it.
fn is_padded(word: &[u8]) -> bool
    ensures { result ≡ parts.is_padded word.now }
{
    match word {
        [b'+', ..] => true,
        [b'0', _, ..] => true,
        [] => false,
        [_, ..] => false,
    }
}
