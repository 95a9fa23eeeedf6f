// The laws of what an image stands for.
ghost use Rattle.store_defs.specs.EditionLaws.{JudgesByItsEpoch, OldBlocksStay, TheTipTells, StaysJoined, StandsAfterAnEdition};
ghost use Rattle.store_defs.specs.StoreLaws.{StandsAsItSays, StandsAfterAnItem, StandsForTheGenesis, StandsForWhatJoined};

/// States that an image stands for a chain as long as its log says the same, that with the record of an
/// item that joins after the others it stands for the chain after that item, that a new log stands for
/// the chain of its genesis alone, and that what an image stands for has joined. It does nothing.
pub fn store_laws()
    ensures stands_as_it_says { StandsAsItSays }
    ensures stands_after_an_item { StandsAfterAnItem }
    ensures stands_for_the_genesis { StandsForTheGenesis }
    ensures stands_for_what_joined { StandsForWhatJoined }
{}

/// States that an edition leaves what stands before its first epoch: each block is judged by its own epoch, so what has joined by
/// then has joined with it, and an image stands for the chain with it once its record stands after the others. It does nothing.
pub fn edition_laws()
    ensures judges_by_its_epoch { JudgesByItsEpoch }
    ensures old_blocks_stay { OldBlocksStay }
    ensures the_tip_tells { TheTipTells }
    ensures stays_joined { StaysJoined }
    ensures stands_after_an_edition { StandsAfterAnEdition }
{}
