// The words of the program.

/// What is made or shown.
#[derive(Clone, Copy)]
pub(crate) enum Kind {
    Transaction,
    Block,
    Script,
    /// What the first witness of a cellbase holds.
    Witness,
    /// The specification of a chain.
    Specification,
}

/// What the program is asked for.
#[derive(Clone, Copy)]
pub(crate) enum Command {
    /// JSON is read, and bytes are written.
    Read(Kind),
    /// Bytes are read, and JSON is written.
    Show(Kind),
    /// The JSON of a block is read, and its bytes are written with what the header commits to.
    Seal,
    /// Bytes are read, and hashes are printed.
    Id,
}

/// The word of a kind.
pub(crate) fn name_of(kind: Kind) -> &'static str {
    match kind {
        Kind::Transaction => "transaction",
        Kind::Block => "block",
        Kind::Script => "script",
        Kind::Witness => "witness",
        Kind::Specification => "spec",
    }
}

fn kind_of(word: &str) -> Option<Kind> {
    match word {
        "transaction" => Some(Kind::Transaction),
        "block" => Some(Kind::Block),
        "script" => Some(Kind::Script),
        "witness" => Some(Kind::Witness),
        "spec" => Some(Kind::Specification),
        _ => None,
    }
}

/// The command of a kind and an option.
fn command_with(kind: &str, option: &str) -> Option<Command> {
    match (kind, option) {
        ("block", "--seal") => Some(Command::Seal),
        (_, "--show") => Some(Command::Show(kind_of(kind)?)),
        _ => None,
    }
}

/// The command that words spell: a kind, and `--show` after it where bytes are shown; `block` and `--seal`; or `id`.
pub(crate) fn command_of(words: &[String]) -> Option<Command> {
    match words {
        [word] => {
            if word.as_str() == "id" {
                Some(Command::Id)
            } else {
                Some(Command::Read(kind_of(word)?))
            }
        }
        [kind, option] => command_with(kind, option),
        _ => None,
    }
}
