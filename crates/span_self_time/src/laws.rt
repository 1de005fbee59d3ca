//! The facts that hold of every list of spans.
ghost use Rattle.span_self_time.specs.Laws.{SelfTimesAddUpToBusy, SelfTimesAreLeftByChildren};

/// The self times of the spans of one thread add up to the time in which the thread is busy. Where any two of the spans nest
/// or are disjoint, a span's self time is its length less the lengths of its direct children. The function does nothing: its
/// contract is the law.
pub fn self_law<N>()
    ensures busy { SelfTimesAddUpToBusy N }
    ensures children { SelfTimesAreLeftByChildren N }
{}
