//! What holds of all words.
ghost use Rattle.span_options.specs.Laws.{FaultsAreAlone, PlainWordsNameFiles};

/// Words have one fault at most, so they give options, are shown something, or are refused, by one reason alone. The function does
/// nothing: its contract is the law.
pub fn fault_law()
    ensures { FaultsAreAlone }
{}

/// Words that begin with no hyphen have no fault, and name files, in their order; no other option is given. The function does
/// nothing: its contract is the law.
pub fn files_law()
    ensures { PlainWordsNameFiles }
{}
