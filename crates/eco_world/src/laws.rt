//! Laws of the definitions: each function does nothing, and its contract is the law.
ghost use Rattle.eco_world.specs.Laws.{AddedQueriesAreFound, ColumnsAreExact, EmptyMergesWantNone, ListingsAreExact, MergesRun};
ghost use Rattle.eco_world.specs.Laws.{NoResultsWantNone, QueriesAreRefused, RefusedMergesChangeNothing, ValuesAreLent};

/// An entity stands in a listed table exactly where it lives and its type passes, and what is lent of it is what it has. So it
/// stands in a column of an id that is data exactly where it lives and has the id, with its value.
pub fn listings_are_exact()
    ensures tables { ListingsAreExact }
    ensures values { ValuesAreLent }
    ensures columns { ColumnsAreExact }
{}

/// A query that is added is found by its number, one is refused as absent only where it is, and memory may be wanting only
/// where there is a result.
pub fn added_queries_are_found()
    ensures added { AddedQueriesAreFound }
    ensures refused { QueriesAreRefused }
    ensures needless { NoResultsWantNone }
{}

/// A merge admits its indices and runs its commands; one that is refused changes nothing, and no memory may be wanting for it,
/// nor for one that has nothing to do.
pub fn merges_are_runs()
    ensures run { MergesRun }
    ensures refused { RefusedMergesChangeNothing }
    ensures needless { EmptyMergesWantNone }
{}
