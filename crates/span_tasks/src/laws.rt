//! What holds of tables that are printed, read back and added, as a fleet does whose machines sum files.
ghost use Rattle.span_tasks.specs.{Fleet.{FleetsLoseNothing, FleetsPrintAlike}, ReadBack.{JsonLinesAreParts, PartsAreAdded}};

use span_request::laws::{columns_law, numbers_law};

/// However files are divided over runs of the program, and in whatever groups and order the tables that these print are added, the last
/// text is that of the table of all files, each a run as it was read, or of those rows of it that are shown. The function does nothing:
/// its contract is the law.
pub fn fleet_law()
    ensures whole { FleetsLoseNothing }
    ensures alike { FleetsPrintAlike }
{}

/// What is printed as JSON Lines, by whatever words, can be read back; and such tables of one schema are added, none is refused. The
/// function does nothing: its contract is the law.
pub fn read_back_law()
    ensures printed { JsonLinesAreParts }
    ensures added { PartsAreAdded }
{
    columns_law();
    numbers_law();
}
