//! The shortest way to the tables whose types pass a test.
ghost use Rattle.std.specs.Prelude.{◌<◌, length};
ghost use Rattle.eco_index.specs.TypeTests.{AreNeeded};

use crate::id_index::IdIndex;
use crate::type_test::TypeTest;

impl IdIndex {
    /// The group of a test's patterns under which the fewest slots are listed. All that pass are among them.
    pub fn shortest_group<T: TypeTest>(&self, test: &T) -> usize
        ensures within { result < length (T.groups test.now) }
        ensures needed { AreNeeded (T.test test.now) (T.groups test.now) }
    {
        let groups = test.group_count();
        if groups == 1 {
            // Nothing is counted where there is no choice.
            return 0;
        }
        let mut shortest = 0;
        let mut fewest = self.listed_count(test, 0);
        for group in 1..groups {
            if fewest == 0 {
                // No group is shorter.
                return shortest;
            }
            let count = self.listed_count(test, group);
            if count < fewest {
                shortest = group;
                fewest = count;
            }
        }
        shortest
    }

    // How many slots are listed under the patterns of a group.
    fn listed_count<T: TypeTest>(&self, test: &T, group: usize) -> usize
        requires { group < length (T.groups test.now) }
    {
        let mut count: usize = 0;
        for place in 0..test.pattern_count(group) {
            count = count.saturating_add(self.slots(test.pattern(group, place)).len());
        }
        count
    }
}
