// The laws of what a log tells of kept blocks.
ghost use Rattle.node_store.specs.StoredLaws.{LogHasRecords, ReadsItsRecord, SaysWhatIsKept, LogHasBlocks, SaysWhatIsOpened, OpensKnown, AgreesAlways, KeepsAfterAppend, FollowsTheLog, PassesEditions, SaysOneMore, AddsARecord};

/// States that a log tells the kept blocks that its records say, or that it is opened with, where the
/// entries name their bodies; that a cache holds what LOG has exactly where it holds what is known; and
/// that cache and entries stay so with one block more, and the entries with an edition. It does nothing.
pub fn store_laws()
    ensures log_has_records { LogHasRecords }
    ensures reads_its_record { ReadsItsRecord }
    ensures says_what_is_kept { SaysWhatIsKept }
    ensures log_has_blocks { LogHasBlocks }
    ensures says_what_is_opened { SaysWhatIsOpened }
    ensures opens_known { OpensKnown }
    ensures agrees_always { AgreesAlways }
    ensures keeps_after_append { KeepsAfterAppend }
    ensures follows_the_log { FollowsTheLog }
    ensures passes_editions { PassesEditions }
    ensures says_one_more { SaysOneMore }
    ensures adds_a_record { AddsARecord }
{}
