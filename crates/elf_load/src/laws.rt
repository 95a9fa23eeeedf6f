// The law of loading.
ghost use Rattle.elf_load.specs.Laws.{LastSegmentCounts};

/// States what stands in memory after a file was loaded. It does nothing.
///
/// Each byte is that of the last segment that covers it, and zero where none does.
pub fn load_laws()
    ensures { LastSegmentCounts }
{}
