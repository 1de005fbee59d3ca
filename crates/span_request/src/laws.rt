//! What holds of all that options and words ask for.
ghost use Rattle.span_request.specs.Laws.{AddedTablesMayHaveThem, AddedTablesMayShowThem, ConditionsMayTestThem, PlainWordsAskForReports, TablesMayHaveThem, TablesMayShowThem};

use span_options::laws::files_law;

/// What is printed of a table by these columns can be read back and added, so far as its columns go; and what is summed has the columns
/// that conditions are on. The function does nothing: its contract is the law.
pub fn columns_law()
    ensures made { TablesMayHaveThem }
    ensures added { AddedTablesMayHaveThem }
    ensures tested { ConditionsMayTestThem }
{}

/// What is printed of a table with the numbers that are shown can be read back and added, so far as these go. The function does
/// nothing: its contract is the law.
pub fn numbers_law()
    ensures made { TablesMayShowThem }
    ensures added { AddedTablesMayShowThem }
{}

/// Words that begin with no hyphen ask for the report of the files that they name. The function does nothing: its contract is the law.
pub fn report_law()
    ensures { PlainWordsAskForReports }
{
    files_law();
}
