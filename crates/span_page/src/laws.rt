//! The facts that hold of every page.
ghost use Rattle.span_page.specs.Laws.{DataEndNoElement, PagesFollowFromActs, StacksAreHadBack};

/// No byte of the data is `<`, so nothing in them ends the element in which they stand. The function does nothing: its contract is
/// the law.
pub fn data_law()
    ensures { DataEndNoElement }
{}

/// Decoding gives back the stacks that were coded. The function does nothing: its contract is the law.
pub fn coding_law()
    ensures { StacksAreHadBack }
{}

/// The page of a journal follows from what was refused, from how many entries there are of each kind, and from the accepted acts on each
/// topic, in their order. The function does nothing: its contract is the law.
pub fn page_law()
    ensures { PagesFollowFromActs }
{}
