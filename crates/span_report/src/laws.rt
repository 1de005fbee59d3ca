//! The facts that hold of every report.
ghost use Rattle.span_report.specs.Laws.{KeyLinesFollowFromActs, ProcessLinesFollowFromActs, ReportsFollowFromActs};

/// The lines of a process, and that of an async or a flow key, follow from the accepted acts on it, in their order; and the report of a journal from how many entries it
/// has of each kind, and from its accepted acts on each topic, in their order. So the order of acts that share no topic changes no
/// report. The function does nothing: its contract is the law.
pub fn report_law()
    ensures lines { ProcessLinesFollowFromActs }
    ensures keys { KeyLinesFollowFromActs }
    ensures report { ReportsFollowFromActs }
{}
