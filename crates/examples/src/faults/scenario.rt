//! The calls that are made, each on a world of its own. Who is made there has the next index: the first has 9, and in a world of
//! the second edition 10.
use crate::faults::deed::Deed;
use crate::faults::order::Order;
use eco_ids::Edition;
use eco_ids::entity::{CHILD_OF, SYMMETRIC, WITH};

/// A call that takes memory.
#[derive(Clone, Copy)]
pub enum Call {
    /// A deed.
    Change(Deed),
    /// An entity is made, of this name.
    Create(&'static str),
    /// A query is added.
    AddQuery(&'static str),
    /// A query's text is read.
    ReadQuery(&'static str),
    /// A query is answered.
    Query(&'static str),
    /// Twenty commands are merged.
    Merge,
    /// A frame of two systems, each of which is a batch.
    Frame,
    /// A pipeline of both is made, and runs a frame.
    Pipeline,
    /// A command is recorded into a stage.
    Record(Order),
    /// A world is shared with two viewers.
    OpenShared,
    /// Twenty commands are merged into a shared world, with another merge before it.
    MergeShared,
}

/// A call by name, and how its world is made.
#[derive(Clone, Copy)]
pub struct Scenario {
    pub name: &'static str,
    pub edition: Edition,
    pub deeds: &'static [Deed],
    pub call: Call,
}

// Names of more than 24 bytes have memory of their own.
const FRESH: &str = "fresh_name_with_memory_of_its_own";

const ANOTHER: &str = "another_name_with_memory_of_its_own";

const WIDE: &str = "Position, ?Frozen, (Likes, *)";

// `T` brings `U` along, which is data; `e` lacks both, and stands in a table with another.
const IMPLIED: &[Deed] = &[
    Deed::Name("T"),
    Deed::Wide("U"),
    Deed::Narrow("V"),
    Deed::Name("e"),
    Deed::Make,
    Deed::AddPair(9, WITH.index, 10),
    Deed::Set(12, 11, [7, 0]),
    Deed::Set(13, 11, [8, 0]),
    Deed::Keep("T, V"),
    Deed::Keep("U, !With"),
];

// `T` brings others along in a chain: with it they are ten, more than a short walk notes, and one of them is data. `e` lacks all.
const FAR: &[Deed] = &[
    Deed::Name("T"),
    Deed::Wide("U"),
    Deed::Make,
    Deed::Make,
    Deed::Make,
    Deed::Make,
    Deed::Make,
    Deed::Make,
    Deed::Make,
    Deed::Make,
    Deed::Name("e"),
    Deed::AddPair(9, WITH.index, 10),
    Deed::AddPair(10, WITH.index, 11),
    Deed::AddPair(11, WITH.index, 12),
    Deed::AddPair(12, WITH.index, 13),
    Deed::AddPair(13, WITH.index, 14),
    Deed::AddPair(14, WITH.index, 15),
    Deed::AddPair(15, WITH.index, 16),
    Deed::AddPair(16, WITH.index, 17),
    Deed::AddPair(17, WITH.index, 18),
    Deed::Keep("T, U"),
];

// An entity without a name has a value, which it alone has, and lacks the tag `T`, which nobody has.
const TAG: &[Deed] = &[
    Deed::Name("T"),
    Deed::Narrow("V"),
    Deed::Make,
    Deed::Set(11, 10, [7, 0]),
    Deed::Keep("T, V"),
    Deed::Keep("V, !T"),
];

// The same, and another entity stands in its table.
const COMPANY: &[Deed] = &[
    Deed::Name("T"),
    Deed::Narrow("V"),
    Deed::Make,
    Deed::Set(11, 10, [7, 0]),
    Deed::Keep("T, V"),
    Deed::Keep("V, !T"),
    Deed::Make,
    Deed::Set(12, 10, [8, 0]),
];

// `e` lacks the pair of `Likes` with `Gold`, which is data.
const PAIR: &[Deed] = &[
    Deed::Name("Likes"),
    Deed::Narrow("Gold"),
    Deed::Name("e"),
    Deed::Keep("(Likes, *)"),
];

// `Near` is symmetric, and its pairs are data. `e`, which has a value besides, lacks the pair with `f`, and both stand alone in
// their tables.
const SYMMETRIC_PAIR: &[Deed] = &[
    Deed::Narrow("V"),
    Deed::Narrow("Near"),
    Deed::Name("e"),
    Deed::Name("f"),
    Deed::Add(11, SYMMETRIC.index),
    Deed::Set(12, 10, [7, 0]),
    Deed::Add(13, 12),
    Deed::Keep("(Near, *)"),
    Deed::Keep("V, !(Near, _)"),
];

// Two have a position, one is frozen, and both like somebody, one of them twice.
const LIKES: &[Deed] = &[
    Deed::Wide("Position"),
    Deed::Name("Frozen"),
    Deed::Name("Likes"),
    Deed::Name("a"),
    Deed::Name("b"),
    Deed::Name("e"),
    Deed::Name("f"),
    Deed::Add(14, 9),
    Deed::AddPair(14, 11, 12),
    Deed::AddPair(14, 11, 13),
    Deed::Add(15, 9),
    Deed::Add(15, 10),
    Deed::AddPair(15, 11, 12),
];

// `e` has nothing, and `f` has `T` and a value.
const TWO: &[Deed] = &[
    Deed::Name("T"),
    Deed::Wide("U"),
    Deed::Name("Likes"),
    Deed::Name("e"),
    Deed::Name("f"),
    Deed::Add(13, 9),
    Deed::Set(13, 10, [7, 0]),
    Deed::Keep("T || U"),
    Deed::Keep("(*, _)"),
];

// `e` has a position, a velocity and a mass.
const MOVER: &[Deed] = &[
    Deed::Wide("Position"),
    Deed::Wide("Velocity"),
    Deed::Narrow("Mass"),
    Deed::Name("e"),
    Deed::Set(12, 9, [1, 1]),
    Deed::Set(12, 10, [2, 3]),
    Deed::Set(12, 11, [0, 0]),
    Deed::Keep("Position, Mass"),
];

// Fifty tables, each of one entity, which has `T` and a tag of its own.
const TABLES: &[Deed] = &[Deed::Name("T"), Deed::Spread(9)];

// A chain of 200, of which the root is named.
const CHAIN: &[Deed] = &[
    Deed::Name("root"),
    Deed::Hang(9),
    Deed::Keep("(ChildOf, *)"),
];

// Twenty have `T`, and each is liked by one of twenty others, who have a value too.
const HOLDERS: &[Deed] = &[
    Deed::Name("T"),
    Deed::Name("Likes"),
    Deed::Narrow("V"),
    Deed::Hold(9, 10, 11),
    Deed::Keep("(Likes, *)"),
    Deed::Keep("V, !(Likes, _)"),
];

// All of them, in the order of their lines.
const SCENARIOS: &[Scenario] = &[
    // Leads to a new type, by way of With, where two queries are kept.
    Scenario {
        name: "add",
        edition: Edition::First,
        deeds: IMPLIED,
        call: Call::Change(Deed::Add(12, 9)),
    },
    // The same, and a walk finds what comes along.
    Scenario {
        name: "add_far",
        edition: Edition::First,
        deeds: FAR,
        call: Call::Change(Deed::Add(19, 9)),
    },
    // Leads from a table with two rows to a new type by an edge that is lacking, where two queries are kept.
    Scenario {
        name: "step",
        edition: Edition::First,
        deeds: COMPANY,
        call: Call::Change(Deed::Add(11, 9)),
    },
    // The same from a table with one row.
    Scenario {
        name: "turn",
        edition: Edition::First,
        deeds: TAG,
        call: Call::Change(Deed::Add(11, 9)),
    },
    // The pair isn't there.
    Scenario {
        name: "set",
        edition: Edition::First,
        deeds: PAIR,
        call: Call::Change(Deed::SetPair(11, 9, 10, 5)),
    },
    // The same of a symmetric relationship, so that its target gets the mirror.
    Scenario {
        name: "set_mirrored",
        edition: Edition::Second,
        deeds: SYMMETRIC_PAIR,
        call: Call::Change(Deed::SetPair(12, 11, 13, 5)),
    },
    Scenario {
        name: "create",
        edition: Edition::First,
        deeds: TAG,
        call: Call::Create(FRESH),
    },
    Scenario {
        name: "rename",
        edition: Edition::First,
        deeds: TAG,
        call: Call::Change(Deed::Rename(11, ANOTHER)),
    },
    // Fifty tables fulfil it.
    Scenario {
        name: "add_query",
        edition: Edition::First,
        deeds: TABLES,
        call: Call::AddQuery("[in] T"),
    },
    // At the root of the chain.
    Scenario {
        name: "delete",
        edition: Edition::First,
        deeds: CHAIN,
        call: Call::Change(Deed::Delete(9)),
    },
    // Of the twenty holders, each of whom a survivor names.
    Scenario {
        name: "delete_with",
        edition: Edition::First,
        deeds: HOLDERS,
        call: Call::Change(Deed::DeleteWith(9)),
    },
    Scenario {
        name: "read_query",
        edition: Edition::First,
        deeds: LIKES,
        call: Call::ReadQuery(WIDE),
    },
    Scenario {
        name: "query",
        edition: Edition::First,
        deeds: LIKES,
        call: Call::Query(WIDE),
    },
    Scenario {
        name: "merge",
        edition: Edition::First,
        deeds: TWO,
        call: Call::Merge,
    },
    Scenario {
        name: "frame",
        edition: Edition::First,
        deeds: MOVER,
        call: Call::Frame,
    },
    Scenario {
        name: "pipeline",
        edition: Edition::First,
        deeds: MOVER,
        call: Call::Pipeline,
    },
    Scenario {
        name: "record",
        edition: Edition::First,
        deeds: TWO,
        call: Call::Record(Order::Name(12, "name")),
    },
    Scenario {
        name: "open_shared",
        edition: Edition::First,
        deeds: TWO,
        call: Call::OpenShared,
    },
    Scenario {
        name: "merge_shared",
        edition: Edition::First,
        deeds: TWO,
        call: Call::MergeShared,
    },
];

/// All of them, in the order of their lines. Only here is the constant named: it is proved anew, with all that it holds, in each
/// function that names it.
pub fn scenarios() -> &'static [Scenario] {
    SCENARIOS
}
