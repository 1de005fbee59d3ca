//! The facts that hold of every comparison and every text of repeated runs.
ghost use Rattle.span_comparisons.specs.Laws.{ComparisonsHaveEachChange, ComparisonsTurn, DifferencesTurn, EachKeyIsCounted, RepetitionsHaveEachKey, RepetitionsHaveNoOrder, TablesCompareWithThemselves, ValuesAreSorted};

/// Between a table and itself nothing changed. The function does nothing: its contract is the law.
pub fn same_law()
    ensures { TablesCompareWithThemselves }
{}

/// A comparison has each key that is shown and of which a number differs, once, and no two such keys stand at one place. The function
/// does nothing: its contract is the law.
pub fn change_law()
    ensures { ComparisonsHaveEachChange }
{}

/// Compared the other way round, two tables have the same changes in the same order, each difference with the other sign, and as
/// many keys that did not change. The function does nothing: its contract is the law.
pub fn turn_law()
    ensures changes { ComparisonsTurn }
    ensures differences { DifferencesTurn }
{}

/// In whatever order the repetitions of a side come, the text of repeated runs is the same; each key that is shown has a line there,
/// once, if its sides are apart, and else is counted, once; and the values that medians are taken from are those of the repetitions, sorted. The function does nothing: its
/// contract is the law.
pub fn repeats_law()
    ensures order { RepetitionsHaveNoOrder }
    ensures places { RepetitionsHaveEachKey }
    ensures keys { EachKeyIsCounted }
    ensures values { ValuesAreSorted }
{}
