// The laws of epochs, since and capacity.

ghost use Rattle.std.specs.Prelude.{◌≡◌, Some, None};
ghost use Rattle.chain_defs.specs.Dao.{occupied_capacity};
ghost use Rattle.chain_defs.specs.TimeLaws.{SpansItsBlocks, CountsFromTheBlock, CountsFromTheTime};

/// States how epoch values measure spans: that of a block's epoch field is over exactly when as many blocks
/// have passed as stand before that block. It does nothing.
pub fn epoch_laws()
    ensures spans_its_blocks { SpansItsBlocks }
{}

/// States that a relative since of blocks or of seconds is the absolute one, counted from the cell. It does nothing.
pub fn since_laws()
    ensures counts_from_the_block { CountsFromTheBlock }
    ensures counts_from_the_time { CountsFromTheTime }
{}

/// States what cells of the usual forms occupy, in shannons. It does nothing.
pub fn occupied_examples()
    // 41 bytes: a lock with no args
    ensures least { occupied_capacity 0 None 0 ≡ 4_100_000_000 }

    // 61 bytes: a lock with the 20 bytes of a key's hash
    ensures common { occupied_capacity 20 None 0 ≡ 6_100_000_000 }

    // 102 bytes: the same with a type without args and 8 bytes of data, as a deposit has it
    ensures deposit { occupied_capacity 20 (Some 0) 8 ≡ 10_200_000_000 }
{}
