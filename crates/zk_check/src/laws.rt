ghost use Rattle.zk_trace.specs.declared.trace.Trace.{Trace};
ghost use Rattle.zk_check.specs.Rows.{RowsRise};

/// Of every trace: the lines of its rows rise. So of two rows with one text each has a line of its own, and only that is named
/// where it fails. It does nothing when it runs.
pub fn rows_rise()
    ensures { (t : Trace) → RowsRise t }
{}
