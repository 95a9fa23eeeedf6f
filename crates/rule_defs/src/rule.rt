// Each rule by the name of what it is on. A rule between two others is a name more, and the numbers of those after it.
ghost use Rattle.std.specs.Prelude.{◌≡◌, ◌++◌, codes, map, Some};
ghost use Rattle.std.specs.Fmt.{decimal};
ghost use Rattle.rule_defs.specs.RuleNumber.{rule_number, rule_numbers};

use std::fmt;

/// A rule on a block, in the order in which they are tried. [`Rule::text`] says what each asks for.
#[derive(Clone, Copy, Debug)]
pub enum Rule {
    Encoding,
    Known,
    Parent,
    Version,
    Number,
    Epoch,
    CompactTarget,
    Timestamp,
    Length,
    Proposals,
    ProposalsHash,
    TransactionsRoot,
    UncleCount,
    UnclesHash,
    Uncles,
    Cellbase,
    CellbaseForm,
    TransactionForm,
    Proposed,
    Inputs,
    CellDeps,
    HeaderDeps,
    Maturity,
    Since,
    Outputs,
    Withdrawals,
    Capacity,
    ScriptCode,
    ScriptExit,
    Cycles,
    Reward,
    DaoField,
}

impl Rule {
    /// All rules, in their order.
    pub fn all() -> [Rule; 32]
        ensures { map rule_number result ≡ rule_numbers }
    {
        [
            Rule::Encoding,
            Rule::Known,
            Rule::Parent,
            Rule::Version,
            Rule::Number,
            Rule::Epoch,
            Rule::CompactTarget,
            Rule::Timestamp,
            Rule::Length,
            Rule::Proposals,
            Rule::ProposalsHash,
            Rule::TransactionsRoot,
            Rule::UncleCount,
            Rule::UnclesHash,
            Rule::Uncles,
            Rule::Cellbase,
            Rule::CellbaseForm,
            Rule::TransactionForm,
            Rule::Proposed,
            Rule::Inputs,
            Rule::CellDeps,
            Rule::HeaderDeps,
            Rule::Maturity,
            Rule::Since,
            Rule::Outputs,
            Rule::Withdrawals,
            Rule::Capacity,
            Rule::ScriptCode,
            Rule::ScriptExit,
            Rule::Cycles,
            Rule::Reward,
            Rule::DaoField,
        ]
    }

    /// Its number in docs/RULES.md, from 1 to 32.
    pub fn number(&self) -> u8
        ensures { result ≡ rule_number self.now }
    {
        match self {
            Rule::Encoding => 1,
            Rule::Known => 2,
            Rule::Parent => 3,
            Rule::Version => 4,
            Rule::Number => 5,
            Rule::Epoch => 6,
            Rule::CompactTarget => 7,
            Rule::Timestamp => 8,
            Rule::Length => 9,
            Rule::Proposals => 10,
            Rule::ProposalsHash => 11,
            Rule::TransactionsRoot => 12,
            Rule::UncleCount => 13,
            Rule::UnclesHash => 14,
            Rule::Uncles => 15,
            Rule::Cellbase => 16,
            Rule::CellbaseForm => 17,
            Rule::TransactionForm => 18,
            Rule::Proposed => 19,
            Rule::Inputs => 20,
            Rule::CellDeps => 21,
            Rule::HeaderDeps => 22,
            Rule::Maturity => 23,
            Rule::Since => 24,
            Rule::Outputs => 25,
            Rule::Withdrawals => 26,
            Rule::Capacity => 27,
            Rule::ScriptCode => 28,
            Rule::ScriptExit => 29,
            Rule::Cycles => 30,
            Rule::Reward => 31,
            Rule::DaoField => 32,
        }
    }

    /// Its line in docs/RULES.md, with the marks that it has there.
    pub fn text(&self) -> &'static str {
        match self {
            Rule::Encoding => "the item is a canonical `Block`",
            Rule::Known =>
                "its hash is not that of a kept block; where it is, the answer is `known`",
            Rule::Parent => "its parent hash is that of a kept block",
            Rule::Version => "the version of its header is 0",
            Rule::Number =>
                "its number is its parent's plus 1, as whole numbers: none follows 2^64 - 1",
            Rule::Epoch => "its epoch field is that of its height (\"Epochs and issuance\")",
            Rule::CompactTarget =>
                "its compact target is the specification's (*own*: RFC 0020 adjusts it)",
            Rule::Timestamp => "its timestamp is above the median time at its parent",
            Rule::Length =>
                "its length, less 10 for each proposal id of its uncles, is at most `max_block_bytes` (*own*)",
            Rule::Proposals => "it has at most `max_proposals` proposal ids, all distinct",
            Rule::ProposalsHash => "`proposals_hash` is that of its proposal ids",
            Rule::TransactionsRoot => "`transactions_root` is that of its transactions",
            Rule::UncleCount => "it has at most 2 uncles",
            Rule::UnclesHash => "`uncles_hash` is that of its uncles",
            Rule::Uncles => "each uncle, in order, is one (\"Uncles\")",
            Rule::Cellbase =>
                "its first transaction is there and is a cellbase, no other is one, and transaction hashes are distinct",
            Rule::CellbaseForm => "the cellbase has its form (\"The cellbase\")",
            Rule::TransactionForm =>
                "it has version 0, an input, an output, as many `outputs_data` as outputs, no cell dep twice and no header dep twice",
            Rule::Proposed =>
                "its id was proposed in the branch at a height p with `w_close <= h - p <= w_far`, by a block or by one of its uncles",
            Rule::Inputs => "its inputs are live, and no cell is spent twice",
            Rule::CellDeps => "each of its cell deps is there (\"Deps\")",
            Rule::HeaderDeps =>
                "each header dep is the hash of an ancestor, genesis among them; under the first edition one from which the span `maturity` is over (*own*)",
            Rule::Maturity =>
                "from the block of each input and resolved dep that a cellbase made, but for the genesis, the span `maturity` is over",
            Rule::Since => "each since is valid and met",
            Rule::Outputs =>
                "each output's capacity is at least what it occupies, and no live cell has its out-point",
            Rule::Withdrawals => "each withdrawing input names its headers (\"Withdrawals\")",
            Rule::Capacity =>
                "what the inputs count, each alone and in sum, is at most 2^64 - 1, so is the outputs' sum, and it is at most the inputs'",
            Rule::ScriptCode =>
                "the code of each group of scripts is found, and is one (\"Script groups\")",
            Rule::ScriptExit => "each group exits with 0 (\"Script groups\")",
            Rule::Cycles => "within the cycles that the block has left",
            Rule::Reward =>
                "the outputs of the cellbase are exactly those that it owes (\"The reward\")",
            Rule::DaoField =>
                "the DAO field is the next one, and there is one (\"Capacity and the DAO field\")",
        }
    }
}

impl fmt::Display for Rule {
    ghost output = { λ rule. Some (codes "J" ++ decimal (rule_number rule)) };

    fn fmt<W: fmt::Write>(&self, f: &mut fmt::Formatter<W>) -> fmt::Result {
        let number = self.number();
        write!(f, "J{number}")
    }
}
