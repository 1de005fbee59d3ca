//! The facts that hold of every ranking, and of every table that is printed.
ghost use Rattle.span_table_text.specs.{Printed.{AllIsPrinted, PartsAreDetermined, PrintsAreParts, ShownRowsAdd}, Ranks.RankingsHaveEachRow};

/// A ranking has each row that is shown, once, and no two rows rank alike. The function does nothing: its contract is the law.
pub fn ranking_law()
    ensures { RankingsHaveEachRow }
{}

/// Two tables that are printed alike are the same. The function does nothing: its contract is the law.
pub fn part_law()
    ensures { PartsAreDetermined }
{}

/// Where all rows are wanted, what is written of a table is its print; and what is printed of runs is a part, so it may be read back,
/// if each run has a legal journal, and a file where that is a column. Of tables that are added, the rows that are shown are those that are shown of each,
/// added. The function does nothing: its contract is the law.
pub fn print_law()
    ensures whole { AllIsPrinted }
    ensures parts { PrintsAreParts }
    ensures shown { ShownRowsAdd }
{}
