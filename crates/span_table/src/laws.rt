//! The facts that hold of every table.
ghost use Rattle.span_table.specs.{Adding.{AddingLosesNothing, DroppingAdds, OrderIsNothing}, Laws.{KeysStandOnce, RowsAddUpToAsync, RowsAddUpToBusy, RowsAreAsyncRows, RowsAreSpanRows, TablesFollowFromActs}};

/// The table of runs follows from how many entries their journals have of each kind, and from their accepted acts on each topic, in
/// their order. The function does nothing: its contract is the law.
pub fn table_law()
    ensures { TablesFollowFromActs }
{}

/// Each key of a table has one row. The function does nothing: its contract is the law.
pub fn key_law()
    ensures { KeysStandOnce }
{}

/// By process, thread and name a table of one run has the rows of spans of the report. The function does nothing: its contract is the
/// law.
pub fn row_law()
    ensures { RowsAreSpanRows }
{}

/// By category, scope, id and name a table of one run has the asynchronous rows of the report, in the order of their texts, if these
/// distinguish them; and by whatever columns its rows have in all what those have. The function does nothing: its contract is the law.
pub fn async_law()
    ensures rows { RowsAreAsyncRows }
    ensures totals { RowsAddUpToAsync }
{}

/// By process, thread and name the self times of a thread's rows add up to its busy time, in the table of one run whose journal is
/// legal. The function does nothing: its contract is the law.
pub fn busy_law()
    ensures { RowsAddUpToBusy }
{}

/// Tables are added without loss: those of some runs, however these are divided, are the table of all of them together, in whatever
/// order they come; and columns that are dropped leave the table by those that stay. The function does nothing: its contract is the
/// law.
pub fn adding_law()
    ensures together { AddingLosesNothing }
    ensures order { OrderIsNothing }
    ensures fewer { DroppingAdds }
{}
