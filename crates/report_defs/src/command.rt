/// What the words of a run ask for, by classes: what a run promises is said once for each of them.
#[derive(Clone, Copy, Debug, PartialEq, Eq)]
pub enum Command {
    /// `init`: a specification and a genesis are read from the input, and a store of them is made.
    Init,
    /// `import`: blocks are read from the input, and each is answered. `watch`: the same, and of the lock with a hash each answer
    /// has the balance.
    Import { watched: Option<[u8; 32]> },
    /// `migrate`: the store is given an edition of the rules, from an epoch on, and nothing is read.
    Migrate { epoch: u64 },
    /// The store is asked, and nothing is read.
    Query(Query),
    /// The store is asked about a whole input.
    Question(Question),
    /// A file is read from the input and answered, without a store.
    Standalone(Standalone),
    /// A chain that is generated is put through a store in memory: neither the input nor the disk is looked at.
    Simulation(Simulation),
}

/// What is asked of the store alone.
#[derive(Clone, Copy, Debug, PartialEq, Eq)]
pub enum Query {
    /// `tip`: prints the tip of the kept blocks.
    Tip,
    /// `header`: prints the header of the block at a height of the best branch.
    Header { height: u64 },
    /// `json`: prints the block at a height of the best branch as JSON.
    Json { height: u64 },
    /// `epoch`: prints the epoch of the tip.
    Epoch,
    /// `cell`: prints the live cell with an out-point.
    Cell { tx_hash: [u8; 32], index: u64 },
    /// `list`: prints the live cells whose lock has a hash, and what they hold together.
    Cells { lock: [u8; 32] },
    /// `dao`: prints what a live cell of the Nervos DAO counts.
    Dao { tx_hash: [u8; 32], index: u64 },
    /// `audit`: prints by how much what the best branch issued, and what its live cells occupy, differ from what is there.
    Audit,
}

/// What is asked of the store about a whole input.
#[derive(Clone, Copy, Debug, PartialEq, Eq)]
pub enum Question {
    /// `check`: a transaction is judged alone, after the tip.
    Check,
    /// `assemble`: a block after the tip is assembled of transactions.
    Assemble,
}

/// What is done with a file, without a store.
#[derive(Clone, Copy, Debug, PartialEq, Eq)]
pub enum Standalone {
    /// `exec`: the program of an ELF file is run, within a budget in cycles.
    Exec { budget: u64 },
    /// `asm`: the words of a text of the assembler are made a file.
    Asm,
    /// `dis`: code is listed.
    Dis,
    /// `unjson`: the text of a block is made the block's bytes.
    Unjson,
}

/// What is done with a generated chain.
#[derive(Clone, Copy, Debug, PartialEq, Eq)]
pub enum Simulation {
    /// `make`: the blocks of a seed, so many of them, are imported one after the other, and counted.
    Make { seed: u64, count: u32 },
    /// `soak`: they are imported again and again over one store, stopped at each call of its disk and once not, and counted.
    Soak { seed: u64, count: u32 },
}
