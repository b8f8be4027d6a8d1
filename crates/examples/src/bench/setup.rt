//! Steps that make what a case begins with.
use crate::bench::group::Group;
use crate::bench::setting::Setting;
use eco_ids::{Entity, Refusal, Value};

/// How many there are, where the size of the case is N.
pub enum Count {
    One,
    /// So many as the case says besides its size.
    Parts,
    Each,
    EachButOne,
    EachFourth,
}

impl Count {
    fn of(&self, size: u32, parts: u32) -> u32 {
        match self {
            Count::One => 1,
            Count::Parts => parts,
            Count::Each => size,
            Count::EachButOne => size.saturating_sub(1),
            Count::EachFourth => size / 4,
        }
    }
}

/// A group of entities. Those that steps have made are numbered from 0 on.
pub enum Pick {
    BuiltIn(Entity),
    Made(usize),
    /// The last entity of the group alone.
    Last(usize),
    /// The group without its first turn.
    FromSecond(usize),
    /// The same, where each entity has eight turns.
    EighthsFromSecond(usize),
}

impl Pick {
    /// The group in a setting.
    pub fn of(&self, setting: &Setting) -> Group {
        match self {
            Pick::BuiltIn(entity) => Group::alone(*entity),
            Pick::Made(number) => setting.group(*number),
            Pick::Last(number) => setting.group(*number).last(),
            Pick::FromSecond(number) => setting.group(*number).from_second(),
            Pick::EighthsFromSecond(number) => setting.group(*number).with_turns(8).from_second(),
        }
    }
}

/// What a setting begins with is made by steps, one after the other.
pub enum Setup {
    /// A world of the second edition takes the place of the one that is there, in which nothing was made yet.
    BeginSecondEdition,
    /// So many entities are made, which are a group.
    Make(Count),
    /// A component of two fields is made, which is a group.
    MakeComponent,
    /// The group's first entity gets a name.
    Name(Pick, &'static str),
    /// So many calls are to be about the entities of the first group, and the tags or components of the second.
    PlanOnes(Count, Pick, Pick),
    /// So many calls are to be about the entities of the first group, and pairs of the others.
    PlanTwos(Count, Pick, Pick, Pick),
    /// The calls are to come in the opposite order.
    Reverse,
    /// Each planned id is added to its entity.
    Add,
    /// Each planned id of its entity is set to these fields.
    Set([i64; 2]),
    /// Each planned entity is deleted.
    Delete,
    /// The stage adds each planned id to its entity.
    RecordAdds,
    /// The stage sets each planned id of its entity to these fields.
    RecordSets([i64; 2]),
    /// The stage makes so many entities, and gives each the tag and a value of the component before it deletes it.
    RecordSpawns(Count, Pick, Pick),
    /// The calls are to be about this query.
    Ask(&'static str),
    /// The calls are to be about this query once it is added to the world.
    Keep(&'static str),
    /// All values of the query's tables are read once, so that they are at hand like plain rows that were just written.
    ReadColumns,
    /// So many plain rows are made.
    MakeRows(Count),
    /// So many names are made.
    MakeNames(Count),
}

impl Setup {
    /// Makes the step, where the size of the case is N, and the case has so many parts.
    pub fn make(&self, setting: &mut Setting, size: u32, parts: u32) -> Result<(), Refusal> {
        match self {
            Setup::BeginSecondEdition => setting.begin_second_edition(),
            Setup::Make(count) => setting.make(count.of(size, parts)),
            Setup::MakeComponent => setting.make_component(),
            Setup::Name(group, name) => setting.name(group, name),
            Setup::PlanOnes(count, group, ids) => setting.plan_ones(
                count.of(size, parts),
                group,
                ids,
            ),
            Setup::PlanTwos(count, group, first, second) => {
                setting.plan_twos(count.of(size, parts), group, first, second)
            }
            Setup::Reverse => setting.reverse(),
            Setup::Add => setting.add(),
            Setup::Set(fields) => setting.set(Value::of(*fields)),
            Setup::Delete => setting.delete(),
            Setup::RecordAdds => setting.record(None),
            Setup::RecordSets(fields) => setting.record(Some(Value::of(*fields))),
            Setup::RecordSpawns(count, tag, component) => {
                setting.record_spawns(count.of(size, parts), tag, component)
            }
            Setup::Ask(text) => setting.ask(text),
            Setup::Keep(text) => setting.keep(text),
            Setup::ReadColumns => setting.read_columns(),
            Setup::MakeRows(count) => setting.make_rows(count.of(size, parts)),
            Setup::MakeNames(count) => setting.make_names(count.of(size, parts)),
        }
    }
}
