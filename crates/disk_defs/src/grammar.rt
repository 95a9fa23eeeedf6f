// The laws of the log.
ghost use Rattle.disk_defs.specs.LogLaws.{ReadsTheRecords, KeepsTheRecords, EndsTheRecords, GivesTheParts, SaysItsRecords, SaysByParts, AddsABlock, AddsAnEdition, EditionsAreKept, EpochIsTold, BeginsWell, StopsAtItsEnd};

/// States what bytes hold: the records of which they are made, and no other, whatever stands after
/// them; and that they hold them as long as their prefix stays. It does nothing.
pub fn record_laws()
    ensures reads_the_records { ReadsTheRecords }
    ensures keeps_the_records { KeepsTheRecords }
    ensures ends_the_records { EndsTheRecords }
    ensures gives_the_parts { GivesTheParts }
{}

/// States what a log says: what its records say, of which the first two keep the rules on them, and with
/// one more record, of a block that may stand there, one more block; and that it is one to its end. It does nothing.
pub fn log_laws()
    ensures says_its_records { SaysItsRecords }
    ensures says_by_parts { SaysByParts }
    ensures adds_a_block { AddsABlock }
    ensures begins_well { BeginsWell }
    ensures stops_at_its_end { StopsAtItsEnd }
{}

/// States what a record of an edition adds: the edition, and no block; and that a record of a block keeps the edition. It does nothing.
pub fn edition_laws()
    ensures adds_an_edition { AddsAnEdition }
    ensures editions_are_kept { EditionsAreKept }
    ensures epoch_is_told { EpochIsTold }
{}
