// What each rule says.

/// What a block or a transaction keeps by a rule (docs/RULES.md, "A block").
pub(crate) fn text_of(rule: u8) -> &'static str {
    match rule {
        1 => "the bytes are a canonical item of the kind that is asked for",
        2 => "its hash is not that of a kept block",
        3 => "its parent hash is that of a kept block",
        4 => "the version of its header is 0",
        5 => "its number is its parent's plus 1",
        6 => "its epoch field is that of its height",
        7 => "its compact target is the specification's",
        8 => "its timestamp is above the median time at its parent",
        9 => "its length, less 10 for each proposal id of its uncles, is at most max_block_bytes",
        10 => "it has at most max_proposals proposal ids, all distinct",
        11 => "proposals_hash is that of its proposal ids",
        12 => "transactions_root is that of its transactions",
        13 => "it has at most 2 uncles",
        14 => "uncles_hash is that of its uncles",
        15 => "each uncle, in order, is one",
        16 =>
            "its first transaction is there and is a cellbase, no other is one, and transaction hashes are distinct",
        17 => "the cellbase has its form",
        18 =>
            "it has version 0, an input, an output, as many outputs_data as outputs, no cell dep twice and no header dep twice",
        19 => "its id was proposed in the branch, w_close to w_far blocks before",
        20 => "its inputs are live, and no cell is spent twice",
        21 => "each of its cell deps is there",
        22 => "each header dep is the hash of an ancestor that may be named",
        23 =>
            "from the block of each input and resolved dep that a cellbase made the span maturity is over",
        24 => "each since is valid and met",
        25 =>
            "each output's capacity is at least what it occupies, and no live cell has its out-point",
        26 => "each withdrawing input names its headers",
        27 =>
            "what the outputs hold is at most what the inputs count, and both sums are at most 2^64 - 1",
        28 => "the code of each group of scripts is found, and is one",
        29 => "each group exits with 0",
        30 => "the groups take no more cycles than are left",
        31 => "the outputs of the cellbase are exactly those that it owes",
        32 => "the DAO field is the next one, and there is one",
        _ => "",
    }
}
