// The law of the statuses of reports.

ghost use Rattle.report_defs.specs.Laws.{HasOwnStatus};

/// States that the status of a report is one of its command's. It does nothing.
pub fn status_laws()
    ensures own_status { HasOwnStatus }
{}
