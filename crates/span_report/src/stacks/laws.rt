//! The facts that hold of all folded stacks.
ghost use Rattle.span_report.specs.Stacks.Laws.{StacksFollowFromActs, TimesAddUpToBusy, TimesAddUpToSelf};

/// By whatever labels, the times of the stacks add up to the busy time of the thread. The function does nothing: its contract is the
/// law.
pub fn busy_law()
    ensures { TimesAddUpToBusy }
{}

/// The times of the stacks that end in a label add up to the self time of that label. The function does nothing: its contract is the
/// law.
pub fn self_law()
    ensures { TimesAddUpToSelf }
{}

/// The stacks of a journal follow from its accepted acts on each topic, in their order. The function does nothing: its contract is the
/// law.
pub fn stacks_law()
    ensures { StacksFollowFromActs }
{}
