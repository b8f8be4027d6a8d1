//! The worlds that cases are about.
use crate::bench::calls::Calls;
use crate::bench::each::{
    add_each, count_each, create_each, create_named_each, delete_each, record_each, record_life,
    remove_each, set_each, sum_columns, sum_each, sum_first, sum_tables, toggle_each,
};
use crate::bench::group::{Group, Ids};
use crate::bench::setup::Pick;
use crate::bench::work::Work;
use eco_ids::{Edition, Id, Refusal, Value};
use eco_world::{Query, QueryId, Results, Stage, World};
use std::alloc::Global;

/// All indices of a world lie below it.
pub const LIMIT: u32 = 1_048_576;

/// A world, and the entities and ids that a case is about, in the order of its calls, or the query that it asks.
pub struct Setting {
    world: World,
    alloc: Global,
    // The entities that were made before the calls, in the order of their making.
    groups: Vec<Group>,
    work: Work,
    query: Option<Query>,
    // A query that was added to the world.
    kept: Option<QueryId>,
    // What the query has found; like the world, it is given up once the time was taken.
    results: Option<Results>,
    // What the yardstick goes through. It has nothing to do with the world.
    rows: Vec<[i64; 2]>,
    // What entities are to be called.
    names: Vec<String>,
    // What a merge does, and how many indices it admits first.
    stages: [Stage; 1],
    admitted: u32,
    // What was copied of the world; like the world, it is given up once the time was taken.
    copy: Option<World>,
}

// By hand, so that dropping it is one call: a derived drop is proved anew at each early return of whoever holds it.
impl Drop for Setting {
    fn drop(self) {
        let Setting {
            world: _,
            alloc: _,
            groups: _,
            work: _,
            query: _,
            kept: _,
            results: _,
            rows: _,
            names: _,
            stages: _,
            admitted: _,
            copy: _,
        } = self;
    }
}

// That calls found what was put in, where all of them were done.
fn is_done(done: Result<(), Refusal>) -> Result<bool, Refusal> {
    done?;
    Ok(true)
}

impl Setting {
    /// A world, and nothing besides.
    pub fn of(alloc: Global, world: World) -> Setting {
        Setting {
            world,
            alloc,
            groups: Vec::new(alloc),
            work: Work::none(alloc),
            query: None,
            kept: None,
            results: None,
            rows: Vec::new(alloc),
            names: Vec::new(alloc),
            stages: [Stage::new(alloc)],
            admitted: 0,
            copy: None,
        }
    }

    /// Begins with a world of the second edition in place of the one that is there.
    pub fn begin_second_edition(&mut self) -> Result<(), Refusal> {
        self.world = World::of_edition(self.alloc, Edition::Second, LIMIT)?;
        Ok(())
    }

    /// Makes the calls, and answers whether they found what was put in.
    pub fn call(&mut self, calls: Calls, size: u32) -> Result<bool, Refusal> {
        match calls {
            Calls::Create => is_done(create_each(&mut self.world, size)),
            Calls::CreateNamed => is_done(create_named_each(&mut self.world, &self.names)),
            Calls::Add => is_done(self.add()),
            Calls::Remove => is_done(remove_each(&mut self.world, &self.work)),
            Calls::Toggle => is_done(toggle_each(&mut self.world, &self.work, size / 2)),
            Calls::Set => is_done(self.set(Value::of([5, 6]))),
            Calls::Get => Ok(sum_each(&self.world, &self.work) == i64::from(size)),
            Calls::SumSlice => Ok(sum_first(&self.rows) == i64::from(size)),
            Calls::SumColumns => Ok(self.sum_columns(size)),
            Calls::SumTables => self.sum_tables(size),
            Calls::RemoveAll => is_done(self.remove_from_all()),
            Calls::Delete => is_done(self.delete()),
            Calls::DeleteWith => is_done(self.delete_with()),
            Calls::Merge => self.merge(size),
            Calls::Results => self.find(size, size),
            Calls::ManyResults => self.find(size, u32::MAX),
            Calls::Cached => self.find_kept(size),
            Calls::NoResults => self.find_often(size),
            Calls::Rows => self.count_rows(size),
            Calls::ReadEach => self.count_by_texts(size),
            Calls::Copy => self.copy(),
        }
    }

    /// Gives up the results that were found.
    pub fn forget(&mut self) {
        self.results = None;
    }

    /// The group of this number. A number that no group has is that of the first entity of all.
    pub fn group(&self, number: usize) -> Group {
        match self.groups.get(number) {
            Some(group) => *group,
            None => Group::new(0, 1),
        }
    }

    /// Makes so many entities, which are a group.
    pub fn make(&mut self, count: u32) -> Result<(), Refusal> {
        let first = self.world.high();
        create_each(&mut self.world, count)?;
        self.groups.push(Group::new(first, count))?;
        Ok(())
    }

    /// Makes a component of two fields, which is a group.
    pub fn make_component(&mut self) -> Result<(), Refusal> {
        let component = self.world.component(None, 2)?;
        self.groups.push(Group::alone(component))?;
        Ok(())
    }

    /// Gives the group's first entity a name.
    pub fn name(&mut self, group: &Pick, name: &str) -> Result<(), Refusal> {
        let entity = group.of(self).at(0);
        self.world.rename(entity, Some(name))
    }

    /// Makes so many plain rows.
    pub fn make_rows(&mut self, count: u32) -> Result<(), Refusal> {
        self.rows.resize(count as usize, [1, 2])?;
        Ok(())
    }

    /// Makes so many names.
    pub fn make_names(&mut self, count: u32) -> Result<(), Refusal> {
        for number in 0..count {
            let name = format!(in self.alloc; "entity_{number}")?;
            self.names.push(name)?;
        }
        Ok(())
    }

    /// The calls are to be about this query.
    pub fn ask(&mut self, text: &str) -> Result<(), Refusal> {
        self.query = Some(self.world.read_query(text)?);
        Ok(())
    }

    /// The calls are to be about this query once it is added to the world.
    pub fn keep(&mut self, text: &str) -> Result<(), Refusal> {
        let query = self.world.read_query(text)?;
        self.kept = Some(self.world.add_query(query)?);
        Ok(())
    }

    // So many calls are to be about the entities and the ids, each at its turn.
    fn plan(&mut self, count: u32, entities: Group, ids: Ids) -> Result<(), Refusal> {
        self.work = Work::of(self.alloc, count, entities, ids)?;
        Ok(())
    }

    /// So many calls are to be about the entities and the tags or components, each at its turn.
    pub fn plan_ones(&mut self, count: u32, entities: &Pick, ones: &Pick) -> Result<(), Refusal> {
        let (entities, ones) = (entities.of(self), ones.of(self));
        self.plan(count, entities, Ids::Ones(ones))
    }

    /// So many calls are to be about the entities and the pairs, each at its turn.
    pub fn plan_twos(
        &mut self,
        count: u32,
        entities: &Pick,
        first: &Pick,
        second: &Pick,
    ) -> Result<(), Refusal> {
        let (entities, first, second) = (entities.of(self), first.of(self), second.of(self));
        self.plan(count, entities, Ids::Twos(first, second))
    }

    /// The calls are to come in the opposite order.
    pub fn reverse(&mut self) -> Result<(), Refusal> {
        self.work.reverse();
        Ok(())
    }

    /// Adds each id to its entity.
    pub fn add(&mut self) -> Result<(), Refusal> {
        add_each(&mut self.world, &self.work)
    }

    /// Sets each id of its entity to the value.
    pub fn set(&mut self, value: Value) -> Result<(), Refusal> {
        set_each(&mut self.world, &self.work, value)
    }

    /// Records that each id is added to its entity, or set to the value.
    pub fn record(&mut self, value: Option<Value>) -> Result<(), Refusal> {
        record_each(&mut self.stages[0], &self.work, value)
    }

    /// Records that so many fresh entities live, get the tag and the value, and die.
    pub fn record_spawns(
        &mut self,
        count: u32,
        tag: &Pick,
        component: &Pick,
    ) -> Result<(), Refusal> {
        let tag = Id::One(tag.of(self).at(0));
        let component = Id::One(component.of(self).at(0));
        let fresh = Group::new(self.world.high(), count);
        self.admitted = count;
        for turn in 0..count {
            record_life(&mut self.stages[0], fresh.at(turn), tag, component)?;
        }
        Ok(())
    }

    // Merges the stage, and answers whether so many commands ran.
    fn merge(&mut self, count: u32) -> Result<bool, Refusal> {
        let report = self.world.merge(self.admitted, &self.stages)?;
        Ok(report.len() == count as usize)
    }

    /// Deletes each entity.
    pub fn delete(&mut self) -> Result<(), Refusal> {
        delete_each(&mut self.world, &self.work)
    }

    // Removes the first id from all entities by one call.
    fn remove_from_all(&mut self) -> Result<(), Refusal> {
        match self.work.id(0) {
            Some(id) => self.world.remove_all(id),
            None => Ok(()),
        }
    }

    // Deletes all entities that have the first id by one call.
    fn delete_with(&mut self) -> Result<(), Refusal> {
        match self.work.id(0) {
            Some(id) => self.world.delete_with(id),
            None => Ok(()),
        }
    }

    // Whether the first fields of the first id's values have this sum.
    fn sum_columns(&self, sum: u32) -> bool {
        match self.work.id(0) {
            Some(id) => sum_columns(&self.world, id) == i64::from(sum),
            None => false,
        }
    }

    // The same, of all tables of the query.
    fn sum_tables(&self, sum: u32) -> Result<bool, Refusal> {
        match (&self.query, self.work.id(0)) {
            (Some(query), Some(id)) => Ok(sum_tables(&self.world, query, id)? == i64::from(sum)),
            _ => Ok(false),
        }
    }

    /// Reads all values of the query's tables once.
    pub fn read_columns(&self) -> Result<(), Refusal> {
        let _is_right = self.sum_tables(0)?;
        Ok(())
    }

    // Whether the query has so many results, from the least number to the greatest. They are all made.
    fn find(&mut self, least: u32, most: u32) -> Result<bool, Refusal> {
        let Some(query) = &self.query else {
            return Ok(false);
        };
        let results = self.world.results(query)?;
        let count = results.len();
        self.results = Some(results);
        Ok(least as usize <= count && count <= most as usize)
    }

    // Whether the query that was added has so many results, which are all made.
    fn find_kept(&mut self, count: u32) -> Result<bool, Refusal> {
        let Some(query) = self.kept else {
            return Ok(false);
        };
        let results = self.world.answer_results(query)?;
        let found = results.len();
        self.results = Some(results);
        Ok(found == count as usize)
    }

    // Whether the query has no result, each time it is asked.
    fn find_often(&mut self, times: u32) -> Result<bool, Refusal> {
        let mut is_right = true;
        for _ in 0..times {
            is_right = self.find(0, 0)? && is_right;
        }
        Ok(is_right)
    }

    // Whether the query has so many rows.
    fn count_rows(&self, count: u32) -> Result<bool, Refusal> {
        match &self.query {
            Some(query) => Ok(self.world.query(query)?.len() == count as usize),
            None => Ok(false),
        }
    }

    // Whether queries for each of the ids have so many results together.
    fn count_by_texts(&self, count: u32) -> Result<bool, Refusal> {
        Ok(count_each(&self.world, self.alloc, &self.work)? == count as usize)
    }

    // Copies the world, and answers whether the copy knows as many indices.
    fn copy(&mut self) -> Result<bool, Refusal> {
        let copy = self.world.try_copy()?;
        let is_right = copy.high() == self.world.high();
        self.copy = Some(copy);
        Ok(is_right)
    }
}
