//! What holds of parts, however they are added.
ghost use Rattle.span_parts.specs.Sum.{SumsAreParts};

/// What is printed of a sum can be read back and added in its turn. The function does nothing: its contract is the law.
pub fn sum_law()
    ensures { SumsAreParts }
{}
