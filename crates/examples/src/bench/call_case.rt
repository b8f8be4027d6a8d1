//! The cases of single calls of a world.
use crate::bench::calls::Calls;
use crate::bench::failure::Failure;
use crate::bench::per_call::hundredths_for_one;
use crate::bench::setting::{LIMIT, Setting};
use crate::bench::start::Start;
use eco_world::World;
use std::alloc::Global;
use std::rt::Clock;
use std::time::Instant;

const EACH: &[u32] = &[1_000, 10_000, 100_000, 1_000_000];

const LARGE: &[u32] = &[10_000, 100_000, 1_000_000];

const PAIRS: &[u32] = &[10_000, 100_000];

const MANY: &[u32] = &[100_000];

const SMALL: &[u32] = &[1_000];

const CHAIN: &[u32] = &[20_000];

const WITH: &[u32] = &[10_000];

const WIDE: &[u32] = &[1_000, 4_000];

/// Of twice the size a case makes twice the calls: where each of them takes as long as before, none of them looks at all
/// that there is.
const DOUBLED: &[u32] = &[1_000, 2_000];

/// What is measured: the name of the case, its sizes, how many parts it has, what is there before, and the calls. The size says how
/// many calls there are, or how many entities they are about; the parts are the targets, tables or parents that these share.
pub struct CallCase(&'static str, &'static [u32], u32, Start, Calls);

/// All cases of single calls, in the order of their lines.
pub const CALL_CASES: &[CallCase] = &[
    CallCase("create", EACH, 1, Start::Nothing, Calls::Create),
    CallCase("delete", EACH, 1, Start::LackTag, Calls::Delete),
    CallCase("create_again", EACH, 1, Start::Freed, Calls::Create),
    CallCase("create_named", MANY, 1, Start::Names, Calls::CreateNamed),
    CallCase("add_tag", EACH, 1, Start::LackTag, Calls::Add),
    CallCase("remove_tag", EACH, 1, Start::HaveTag, Calls::Remove),
    CallCase(
        "add_tag_with_values",
        EACH,
        1,
        Start::HaveValues,
        Calls::Add,
    ),
    CallCase("set_there", EACH, 1, Start::HaveValue, Calls::Set),
    CallCase("set_absent", EACH, 1, Start::LackValue, Calls::Set),
    CallCase("get", EACH, 1, Start::HaveValue, Calls::Get),
    CallCase("remove_all", EACH, 1, Start::HaveTag, Calls::RemoveAll),
    CallCase("delete_with", EACH, 1, Start::HaveTag, Calls::DeleteWith),
    CallCase("toggle_one", MANY, 1, Start::OneLacksTag, Calls::Toggle),
    CallCase("rel_add/1", PAIRS, 1, Start::LackPair, Calls::Add),
    CallCase("rel_add/100", PAIRS, 100, Start::LackPair, Calls::Add),
    CallCase("rel_add/10000", PAIRS, 10_000, Start::LackPair, Calls::Add),
    CallCase("rel_add/own", PAIRS, 1, Start::LackOwnPair, Calls::Add),
    CallCase("sym_add", PAIRS, 100, Start::LackSymmetricPair, Calls::Add),
    CallCase(
        "sym_remove",
        PAIRS,
        100,
        Start::HaveSymmetricPair,
        Calls::Remove,
    ),
    CallCase("child_move/2", PAIRS, 2, Start::NextParent, Calls::Add),
    CallCase("child_move/100", PAIRS, 100, Start::NextParent, Calls::Add),
    CallCase(
        "child_move/10000",
        PAIRS,
        10_000,
        Start::NextParent,
        Calls::Add,
    ),
    CallCase(
        "rel_many_targets",
        SMALL,
        1,
        Start::OneLacksPairs,
        Calls::Add,
    ),
    CallCase("with_1", WITH, 1, Start::LackWith, Calls::Add),
    CallCase("with_40", WITH, 40, Start::LackWith, Calls::Add),
    CallCase(
        "wild_pairs",
        WIDE,
        1,
        Start::OneHasPairs,
        Calls::ManyResults,
    ),
    CallCase("delete_targets", WIDE, 1, Start::Targets, Calls::Delete),
    CallCase(
        "chain_build_leaf_first",
        CHAIN,
        1,
        Start::LackChain,
        Calls::Add,
    ),
    CallCase(
        "chain_build_root_first",
        CHAIN,
        1,
        Start::LackChainFromRoot,
        Calls::Add,
    ),
    CallCase("chain_delete", CHAIN, 1, Start::ChainRoot, Calls::Delete),
    CallCase("wide_delete", MANY, 1, Start::Parent, Calls::Delete),
    CallCase("bushy_delete", MANY, 1, Start::TreeRoot, Calls::Delete),
    CallCase("strip_target", MANY, 1, Start::Target, Calls::Delete),
    CallCase("query_one/1", LARGE, 1, Start::AskOne, Calls::Results),
    CallCase("query_one/100", LARGE, 100, Start::AskOne, Calls::Results),
    CallCase(
        "query_one/10000",
        LARGE,
        10_000,
        Start::AskOne,
        Calls::Results,
    ),
    CallCase("query_two/1", LARGE, 1, Start::AskTwo, Calls::Results),
    CallCase("query_two/100", LARGE, 100, Start::AskTwo, Calls::Results),
    CallCase(
        "query_two/10000",
        LARGE,
        10_000,
        Start::AskTwo,
        Calls::Results,
    ),
    CallCase("query_wild/1", LARGE, 1, Start::AskWild, Calls::Results),
    CallCase("query_wild/100", LARGE, 100, Start::AskWild, Calls::Results),
    CallCase(
        "query_wild/10000",
        LARGE,
        10_000,
        Start::AskWild,
        Calls::Results,
    ),
    CallCase("query_not/1", LARGE, 1, Start::AskNot, Calls::Results),
    CallCase("query_not/100", LARGE, 100, Start::AskNot, Calls::Results),
    CallCase(
        "query_not/10000",
        LARGE,
        10_000,
        Start::AskNot,
        Calls::Results,
    ),
    CallCase("query_cached/1", LARGE, 1, Start::Kept, Calls::Cached),
    CallCase("query_cached/100", LARGE, 100, Start::Kept, Calls::Cached),
    CallCase(
        "query_cached/10000",
        LARGE,
        10_000,
        Start::Kept,
        Calls::Cached,
    ),
    CallCase("rows_one/1", LARGE, 1, Start::AskOne, Calls::Rows),
    CallCase("rows_one/100", LARGE, 100, Start::AskOne, Calls::Rows),
    CallCase("rows_one/10000", LARGE, 10_000, Start::AskOne, Calls::Rows),
    CallCase("slice_sum", LARGE, 1, Start::Rows, Calls::SumSlice),
    CallCase("columns_sum/1", LARGE, 1, Start::Columns, Calls::SumColumns),
    CallCase(
        "columns_sum/100",
        LARGE,
        100,
        Start::Columns,
        Calls::SumColumns,
    ),
    CallCase(
        "columns_sum/10000",
        LARGE,
        10_000,
        Start::Columns,
        Calls::SumColumns,
    ),
    CallCase(
        "tables_sum/100",
        LARGE,
        100,
        Start::Columns,
        Calls::SumTables,
    ),
    CallCase(
        "query_none",
        SMALL,
        10_000,
        Start::NobodyHas,
        Calls::NoResults,
    ),
    CallCase(
        "query_none",
        SMALL,
        100_000,
        Start::NobodyHas,
        Calls::NoResults,
    ),
    CallCase("merge_add", MANY, 1, Start::RecordedAdds, Calls::Merge),
    CallCase("merge_set", MANY, 1, Start::RecordedSets, Calls::Merge),
    CallCase("merge_spawn", MANY, 1, Start::RecordedSpawns, Calls::Merge),
    CallCase("copy_world", EACH, 1, Start::HaveValues, Calls::Copy),
    CallCase("copy_world/own", PAIRS, 1, Start::HaveOwnPair, Calls::Copy),
    CallCase("many_tags", DOUBLED, 1, Start::OneLacksTags, Calls::Add),
    CallCase(
        "rel_add_to_used",
        DOUBLED,
        1,
        Start::LackCommonPair,
        Calls::Add,
    ),
    CallCase("trait_toggle", DOUBLED, 1, Start::LackTrait, Calls::Toggle),
    CallCase(
        "query_each_pair",
        DOUBLED,
        1,
        Start::HaveOwnPair,
        Calls::ReadEach,
    ),
];

impl CallCase {
    /// As its lines begin.
    pub fn name(&self) -> &'static str {
        self.0
    }

    /// The sizes at which it is measured.
    pub fn sizes(&self) -> &'static [u32] {
        self.1
    }

    /// The time of one call of one run, in hundredths of a nanosecond. Giving up the world is not timed.
    pub fn hundredths<C: Clock>(
        &self,
        clock: &C,
        alloc: Global,
        size: u32,
    ) -> Result<u64, Failure> {
        let mut setting = Setting::of(alloc, World::new(alloc, LIMIT)?);
        self.measure(clock, &mut setting, size)
    }

    // The time of one of the calls. What comes before is not timed.
    fn measure<C: Clock>(
        &self,
        clock: &C,
        setting: &mut Setting,
        size: u32,
    ) -> Result<u64, Failure> {
        self.3.make(setting, size, self.2)?;
        if self.4.come_again() {
            self.call_before(setting, size)?;
        }
        let start = Instant::now(clock)?;
        let is_right = setting.call(self.4, size)?;
        let time = start.elapsed(clock)?;
        if is_right {
            Ok(hundredths_for_one(time, size))
        } else {
            Err(Failure::WrongAnswer)
        }
    }

    // A query is asked again and again of a world: from the third answer on it needs no new pages of the system for its results.
    // Likewise values are read in each frame, where the frame before has read them.
    fn call_before(&self, setting: &mut Setting, size: u32) -> Result<(), Failure> {
        for _ in 0..2 {
            let _is_right = setting.call(self.4, size)?;
            setting.forget();
        }
        Ok(())
    }
}
