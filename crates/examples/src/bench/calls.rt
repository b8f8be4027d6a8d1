//! The calls that are measured.

/// Calls whose time is measured. Those of a setting's work go through it in order.
#[derive(Clone, Copy)]
pub enum Calls {
    /// So many creates of entities without a name.
    Create,
    /// A create with each of the names.
    CreateNamed,
    /// Each id is added to its entity.
    Add,
    /// Each id is removed from its entity.
    Remove,
    /// Each id is added to its entity and removed from it, so many times by half; both count.
    Toggle,
    /// Each id of its entity is set to a value, of which the second field isn't 0.
    Set,
    /// The first id's value is read of each entity, of which the first field is 1.
    Get,
    /// The first fields of a plain slice of rows are added up, each of which is 1: the yardstick for columns.
    SumSlice,
    /// The first fields of the first id's values are added up, column by column, each of which is 1.
    SumColumns,
    /// The same, by a list of the query's tables.
    SumTables,
    /// The first id is removed from all entities by one call.
    RemoveAll,
    /// Each entity is deleted.
    Delete,
    /// All entities that have the first id are deleted by one call.
    DeleteWith,
    /// One merge of the stage, which has so many commands.
    Merge,
    /// One answer of the query, which has so many results.
    Results,
    /// One answer of the query, which has so many results and a few more, of built-ins.
    ManyResults,
    /// One answer of the query that was added, which has so many results.
    Cached,
    /// So many answers of the query, which has no result.
    NoResults,
    /// One answer of the query, which has so many results, each made as a row of its own.
    Rows,
    /// A query for each id, which one entity has: its text is read, and it is answered.
    ReadEach,
    /// One copy of the world.
    Copy,
}

impl Calls {
    /// Whether they are made twice before they are measured: answers that give handles, and sums of values.
    pub fn come_again(self) -> bool {
        self.gives_results() || self.sums()
    }

    fn gives_results(self) -> bool {
        matches!(self, Calls::Results | Calls::ManyResults | Calls::Cached)
    }

    fn sums(self) -> bool {
        matches!(self, Calls::SumSlice | Calls::SumColumns | Calls::SumTables)
    }
}
