//! The supply law (docs/RULES.md, "The reward"): what a chain has issued is, along each branch, in live cells, saved, not paid yet,
//! or burned.
//!
//! Definitions, and laws as contracts of functions that do nothing: [`supply`] says that nothing comes from nowhere and nothing
//! is lost, block by block and from the genesis on, and [`sums`] how great the sums are. The live cells are the list of
//! chain_defs.
#![tactic(auto)]

ghost use Rattle.supply_defs.specs.Laws.{BlocksStep, NothingIsLost, OccupiedStays, StartsWithItsOutputs, SumsAreSmall, StartsSmall};

/// States of a chain that has joined: each block is one more on its parent's branch, and moves the four sums of that branch
/// by its step; so what was issued is saved, in live cells, unpaid or burned, and live cells occupy what the DAO field says,
/// but for what the genesis itself has amiss. It does nothing.
pub fn supply()
    ensures blocks_step { BlocksStep }
    ensures nothing_is_lost { NothingIsLost }
    ensures occupied_stays { OccupiedStays }
{}

/// States what the four sums are at a genesis that keeps its rules, and that each is below 2^120 there and along a chain of
/// canonical blocks that has joined. It does nothing.
pub fn sums()
    ensures starts_with_its_outputs { StartsWithItsOutputs }
    ensures sums_are_small { SumsAreSmall }
    ensures starts_small { StartsSmall }
{}
