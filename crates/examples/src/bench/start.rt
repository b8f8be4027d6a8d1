//! What the measured part of a case begins with: steps that make it in a new world.
use crate::bench::setting::Setting;
use crate::bench::setup::{Count, Pick, Setup};
use eco_ids::Refusal;
use eco_ids::entity::{CHILD_OF, EXCLUSIVE, SYMMETRIC, WITH};

/// What is there before the time is taken, and which calls are planned. The calls are about what is lacking, or else about what is
/// there. The size of the case is N.
#[derive(Clone, Copy)]
pub enum Start {
    /// What lives in each new world.
    Nothing,
    /// The same, and N names that nobody has.
    Names,
    /// One entity lacks a tag.
    OneLacksTag,
    /// N entities lack a tag.
    LackTag,
    /// N entities have a tag.
    HaveTag,
    /// N indices are free, each of an entity that was deleted.
    Freed,
    /// A stage adds a tag to each of N entities.
    RecordedAdds,
    /// N entities lack a component of two fields.
    LackValue,
    /// N entities have a value of a component of two fields, and the first field is 1.
    HaveValue,
    /// A stage sets the value of each of N entities that have one.
    RecordedSets,
    /// A stage makes N/4 entities, and gives each a tag and a value before it deletes it.
    RecordedSpawns,
    /// N entities have values of two components, and lack a tag.
    HaveValues,
    /// N entities have the component P and the tag Q, and stand in so many tables as the case has parts; P is asked.
    AskOne,
    /// The same, and P and Q are asked.
    AskTwo,
    /// The same, and the pairs by which they stand in tables are asked.
    AskWild,
    /// The same, and P is asked without a pair that nobody has.
    AskNot,
    /// The same, and a query of P and the pairs is added to the world.
    Kept,
    /// The entities stand so, and the first field of each value of P is 1; P is asked. All values were read once.
    Columns,
    /// A plain list has N rows of two numbers, and the first one of each is 1.
    Rows,
    /// So many entities as the case has parts each have a pair of one plain relationship with a target of its own; who has a parent
    /// and a certain tag is asked, and nobody has that tag.
    NobodyHas,
    /// N entities each lack a pair of one plain relationship; so many targets as the case has parts take turns.
    LackPair,
    /// N entities each lack a pair of one symmetric relationship; so many targets as the case has parts take turns.
    LackSymmetricPair,
    /// The same, and the entities have the pairs.
    HaveSymmetricPair,
    /// N entities each lack a pair of one plain relationship with a target of its own.
    LackOwnPair,
    /// N entities each have a pair of one plain relationship with a target of its own.
    HaveOwnPair,
    /// The same, and the entities lack the pair with a further target.
    LackCommonPair,
    /// One entity lacks N pairs of one plain relationship.
    OneLacksPairs,
    /// One entity has N pairs of one plain relationship, and whatever pair somebody has is asked.
    OneHasPairs,
    /// The N targets of the pairs that one entity has.
    Targets,
    /// N entities lack a tag that brings by With as many others as the case has parts.
    LackWith,
    /// One entity lacks N tags.
    OneLacksTags,
    /// One entity lacks a trait of relationships, and is the target of N pairs of a relationship each. It is no relationship itself.
    LackTrait,
    /// N children of so many parents as the case has parts, who take turns; each child lacks the next parent.
    NextParent,
    /// N entities, each but the last of which lacks the one after it as parent, from the first on.
    LackChain,
    /// The same, from the last on.
    LackChainFromRoot,
    /// The root of such a chain, where each has its parent.
    ChainRoot,
    /// The parent of N entities.
    Parent,
    /// The first of N entities, each of the others of which is a child of the one at the eighth part of its place.
    TreeRoot,
    /// A target, of which N entities have the pair of a plain relationship.
    Target,
}

const TAG: &[Setup] = &[
    Setup::Make(Count::One),
    Setup::Make(Count::Each),
    Setup::PlanOnes(Count::Each, Pick::Made(1), Pick::Made(0)),
];

const COMPONENT: &[Setup] = &[
    Setup::MakeComponent,
    Setup::Make(Count::Each),
    Setup::PlanOnes(Count::Each, Pick::Made(1), Pick::Made(0)),
];

// N entities have the component P and the tag Q, and stand in so many tables as the case has parts, by their pairs of the
// relationship Group, whose targets take turns on them.
const TABLES: &[Setup] = &[
    Setup::MakeComponent,
    Setup::Make(Count::One),
    Setup::Make(Count::One),
    Setup::Name(Pick::Made(0), "P"),
    Setup::Name(Pick::Made(1), "Q"),
    Setup::Name(Pick::Made(2), "Group"),
    Setup::Make(Count::Parts),
    Setup::Make(Count::Each),
    Setup::PlanTwos(Count::Each, Pick::Made(4), Pick::Made(2), Pick::Made(3)),
    Setup::Add,
    Setup::PlanOnes(Count::Each, Pick::Made(4), Pick::Made(1)),
    Setup::Add,
    Setup::PlanOnes(Count::Each, Pick::Made(4), Pick::Made(0)),
    Setup::Add,
];

const OWN_PAIR: &[Setup] = &[
    Setup::Make(Count::One),
    Setup::Make(Count::Each),
    Setup::Make(Count::Each),
    Setup::PlanTwos(Count::Each, Pick::Made(2), Pick::Made(0), Pick::Made(1)),
];

const CHAIN: &[Setup] = &[
    Setup::Make(Count::Each),
    Setup::PlanTwos(
        Count::EachButOne,
        Pick::Made(0),
        Pick::BuiltIn(CHILD_OF),
        Pick::FromSecond(0),
    ),
];

const SYMMETRIC_PAIR: &[Setup] = &[
    Setup::BeginSecondEdition,
    Setup::Make(Count::One),
    Setup::PlanOnes(Count::One, Pick::Made(0), Pick::BuiltIn(SYMMETRIC)),
    Setup::Add,
    Setup::Make(Count::Parts),
    Setup::Make(Count::Each),
    Setup::PlanTwos(Count::Each, Pick::Made(2), Pick::Made(0), Pick::Made(1)),
];

const PAIRS_OF_ONE: &[Setup] = &[
    Setup::Make(Count::One),
    Setup::Make(Count::Each),
    Setup::Make(Count::One),
    Setup::PlanTwos(Count::Each, Pick::Made(2), Pick::Made(0), Pick::Made(1)),
];

const ONE_LACKS_TAG: &[Setup] = &[
    Setup::Make(Count::One),
    Setup::Make(Count::One),
    Setup::PlanOnes(Count::One, Pick::Made(1), Pick::Made(0)),
];

const RECORDED_SPAWNS: &[Setup] = &[
    Setup::Make(Count::One),
    Setup::MakeComponent,
    Setup::RecordSpawns(Count::EachFourth, Pick::Made(0), Pick::Made(1)),
];

const HAVE_VALUES: &[Setup] = &[
    Setup::MakeComponent,
    Setup::MakeComponent,
    Setup::Make(Count::One),
    Setup::Make(Count::Each),
    Setup::PlanOnes(Count::Each, Pick::Made(3), Pick::Made(0)),
    Setup::Set([1, 2]),
    Setup::PlanOnes(Count::Each, Pick::Made(3), Pick::Made(1)),
    Setup::Set([3, 4]),
    Setup::PlanOnes(Count::Each, Pick::Made(3), Pick::Made(2)),
];

const KEPT: &[Setup] = &[Setup::Ask("P, (Group, *)"), Setup::Keep("P, (Group, *)")];

const COLUMNS: &[Setup] = &[Setup::Ask("P"), Setup::Set([1, 2]), Setup::ReadColumns];

const NOBODY_HAS: &[Setup] = &[
    Setup::Make(Count::One),
    Setup::Make(Count::Parts),
    Setup::Make(Count::Parts),
    Setup::PlanTwos(Count::Parts, Pick::Made(2), Pick::Made(0), Pick::Made(1)),
    Setup::Add,
    Setup::Make(Count::One),
    Setup::Name(Pick::Made(3), "Z"),
    Setup::Ask("Z, (ChildOf, *)"),
];

const LACK_PAIR: &[Setup] = &[
    Setup::Make(Count::One),
    Setup::Make(Count::Parts),
    Setup::Make(Count::Each),
    Setup::PlanTwos(Count::Each, Pick::Made(2), Pick::Made(0), Pick::Made(1)),
];

const LACK_COMMON_PAIR: &[Setup] = &[
    Setup::Add,
    Setup::Make(Count::One),
    Setup::PlanTwos(Count::Each, Pick::Made(2), Pick::Made(0), Pick::Made(3)),
];

const TARGETS: &[Setup] = &[
    Setup::Add,
    Setup::PlanOnes(Count::Each, Pick::Made(1), Pick::Made(1)),
];

const LACK_WITH: &[Setup] = &[
    Setup::Make(Count::One),
    Setup::Make(Count::Parts),
    Setup::PlanTwos(
        Count::Parts,
        Pick::Made(0),
        Pick::BuiltIn(WITH),
        Pick::Made(1),
    ),
    Setup::Add,
    Setup::Make(Count::Each),
    Setup::PlanOnes(Count::Each, Pick::Made(2), Pick::Made(0)),
];

const ONE_LACKS_TAGS: &[Setup] = &[
    Setup::Make(Count::One),
    Setup::Make(Count::Each),
    Setup::PlanOnes(Count::Each, Pick::Made(0), Pick::Made(1)),
];

const LACK_TRAIT: &[Setup] = &[
    Setup::Make(Count::One),
    Setup::Make(Count::Each),
    Setup::Make(Count::Each),
    Setup::PlanTwos(Count::Each, Pick::Made(2), Pick::Made(1), Pick::Made(0)),
    Setup::Add,
    Setup::PlanOnes(Count::One, Pick::Made(0), Pick::BuiltIn(EXCLUSIVE)),
];

const NEXT_PARENT: &[Setup] = &[
    Setup::Make(Count::Parts),
    Setup::Make(Count::Each),
    Setup::PlanTwos(
        Count::Each,
        Pick::Made(1),
        Pick::BuiltIn(CHILD_OF),
        Pick::Made(0),
    ),
    Setup::Add,
    Setup::PlanTwos(
        Count::Each,
        Pick::Made(1),
        Pick::BuiltIn(CHILD_OF),
        Pick::FromSecond(0),
    ),
];

const CHAIN_ROOT: &[Setup] = &[
    Setup::Add,
    Setup::PlanOnes(Count::One, Pick::Last(0), Pick::Last(0)),
];

const PARENT: &[Setup] = &[
    Setup::Make(Count::One),
    Setup::Make(Count::Each),
    Setup::PlanTwos(
        Count::Each,
        Pick::Made(1),
        Pick::BuiltIn(CHILD_OF),
        Pick::Made(0),
    ),
    Setup::Add,
    Setup::PlanOnes(Count::One, Pick::Made(0), Pick::Made(0)),
];

const TREE_ROOT: &[Setup] = &[
    Setup::Make(Count::Each),
    Setup::PlanTwos(
        Count::EachButOne,
        Pick::FromSecond(0),
        Pick::BuiltIn(CHILD_OF),
        Pick::EighthsFromSecond(0),
    ),
    Setup::Add,
    Setup::PlanOnes(Count::One, Pick::Made(0), Pick::Made(0)),
];

const TARGET: &[Setup] = &[
    Setup::Make(Count::One),
    Setup::Make(Count::One),
    Setup::Make(Count::Each),
    Setup::PlanTwos(Count::Each, Pick::Made(2), Pick::Made(0), Pick::Made(1)),
    Setup::Add,
    Setup::PlanOnes(Count::One, Pick::Made(1), Pick::Made(1)),
];

const ASK_ONE: &[Setup] = &[Setup::Ask("P")];

const ASK_TWO: &[Setup] = &[Setup::Ask("P, Q")];

const ASK_WILD: &[Setup] = &[Setup::Ask("(Group, *)")];

const ASK_NOT: &[Setup] = &[Setup::Ask("P, !(Group, ChildOf)")];

const ONE_HAS_PAIRS: &[Setup] = &[Setup::Add, Setup::Ask("(_, *)")];

fn make_all(setting: &mut Setting, steps: &[Setup], size: u32, parts: u32) -> Result<(), Refusal> {
    for step in steps {
        step.make(setting, size, parts)?;
    }
    Ok(())
}

impl Start {
    /// Makes it in a new world, where the size of a case is N, and the case has so many parts.
    pub fn make(self, setting: &mut Setting, size: u32, parts: u32) -> Result<(), Refusal> {
        make_all(setting, self.first(), size, parts)?;
        make_all(setting, self.further(), size, parts)
    }

    // The steps with which several begin.
    fn first(self) -> &'static [Setup] {
        match self {
            Start::LackTag | Start::HaveTag | Start::Freed | Start::RecordedAdds => TAG,
            Start::LackValue | Start::HaveValue | Start::RecordedSets => COMPONENT,
            Start::AskOne
            | Start::AskTwo
            | Start::AskWild
            | Start::AskNot
            | Start::Kept
            | Start::Columns => TABLES,
            Start::LackSymmetricPair | Start::HaveSymmetricPair => SYMMETRIC_PAIR,
            Start::LackOwnPair | Start::HaveOwnPair | Start::LackCommonPair => OWN_PAIR,
            Start::OneLacksPairs | Start::OneHasPairs | Start::Targets => PAIRS_OF_ONE,
            Start::LackChain | Start::LackChainFromRoot | Start::ChainRoot => CHAIN,
            _ => &[],
        }
    }

    // The steps behind these.
    fn further(self) -> &'static [Setup] {
        match self {
            Start::Names => &[Setup::MakeNames(Count::Each)],
            Start::OneLacksTag => ONE_LACKS_TAG,
            Start::HaveTag | Start::HaveSymmetricPair | Start::HaveOwnPair => &[Setup::Add],
            Start::Freed => &[Setup::Delete],
            Start::RecordedAdds => &[Setup::RecordAdds],
            Start::HaveValue => &[Setup::Set([1, 2])],
            Start::RecordedSets => &[Setup::Set([1, 2]), Setup::RecordSets([1, 2])],
            Start::RecordedSpawns => RECORDED_SPAWNS,
            Start::HaveValues => HAVE_VALUES,
            Start::AskOne => ASK_ONE,
            Start::AskTwo => ASK_TWO,
            Start::AskWild => ASK_WILD,
            Start::AskNot => ASK_NOT,
            Start::Kept => KEPT,
            Start::Columns => COLUMNS,
            Start::Rows => &[Setup::MakeRows(Count::Each)],
            Start::NobodyHas => NOBODY_HAS,
            Start::LackPair => LACK_PAIR,
            Start::LackCommonPair => LACK_COMMON_PAIR,
            Start::OneHasPairs => ONE_HAS_PAIRS,
            Start::Targets => TARGETS,
            Start::LackWith => LACK_WITH,
            Start::OneLacksTags => ONE_LACKS_TAGS,
            Start::LackTrait => LACK_TRAIT,
            Start::NextParent => NEXT_PARENT,
            Start::LackChainFromRoot => &[Setup::Reverse],
            Start::ChainRoot => CHAIN_ROOT,
            Start::Parent => PARENT,
            Start::TreeRoot => TREE_ROOT,
            Start::Target => TARGET,
            _ => &[],
        }
    }
}
