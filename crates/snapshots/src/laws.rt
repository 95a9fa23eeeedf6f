// The law that writing and reading are of one form.
ghost use Rattle.snapshots.specs.Laws.{ReadsWhatIsWritten};

/// States that what `write` leaves in an area, `read` answers: that number, that tip and just those rows, where its tip and each
/// row are of the tree that it is read for. It does nothing.
pub fn snapshot_laws()
    ensures reads_what_is_written { ReadsWhatIsWritten }
{}
