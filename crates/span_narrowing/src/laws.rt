//! The facts that hold of every table that is narrowed.
ghost use Rattle.span_narrowing.specs.Laws.{NarrowingAdds, NarrowingHasNoOrder, NarrowingLosesNothing, PlainChangesNothing};

/// Without conditions, and where no templates are merged, a table stays as it is. Tables that are narrowed and then added are what they
/// are if they are added first; so those of some runs, however these are divided, and in whatever order they come, are the narrowed table
/// of all of them together. The function does nothing: its contract is the law.
pub fn narrowing_law()
    ensures plain { PlainChangesNothing }
    ensures added { NarrowingAdds }
    ensures together { NarrowingLosesNothing }
    ensures order { NarrowingHasNoOrder }
{}
