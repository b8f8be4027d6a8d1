//! Ids that were seen, of which most come in their order.
ghost use Rattle.std.specs.Prelude.{◌≡◌, not, IfOk, OnOk, IsTrue};
ghost use Rattle.eco_ids.specs.Order.{has_item, id_cmp, is_ascending};
ghost use Rattle.eco_index.specs.Seen.{is_above, is_seen, AreApart, SeesToo, SeesNone};

use eco_ids::Id;
use std::alloc::{AllocError, Global};
use std::collections::BTreeSet;

/// Ids that were seen. No model: the contracts read the fields.
pub(crate) struct Seen {
    /// Those that came above all before them: they ascend, so that most need no search.
    pub(crate) run: Vec<Id>,
    /// The others.
    pub(crate) rest: BTreeSet<Id>,
}

// By hand, so that dropping it is one call: a derived drop is proved anew at each early return of whoever holds it.
impl Drop for Seen {
    fn drop(self) {
        let Seen { run: _, rest: _ } = self;
    }
}

impl Seen {
    /// No id yet.
    pub(crate) fn none(alloc: Global) -> Seen
        ensures apart { AreApart result }
        ensures none { SeesNone result }
    {
        Seen {
            run: Vec::new(alloc),
            rest: BTreeSet::new(alloc),
        }
    }

    /// Whether the id is new. It is seen from then on. An `Err` comes where memory is refused.
    #[inline(always)]
    pub(crate) fn see(&mut self, id: Id) -> Result<bool, AllocError>
        requires { AreApart self.old }
        ensures is { IfOk result (λ is. is ≡ not (is_seen self.old id)) }
        ensures seen { OnOk result (SeesToo id self.old self.new) }
        ensures apart { OnOk result (AreApart self.new) }
    {
        if is_above(&self.run, id) {
            self.run.push(id)?;
            return Ok(true);
        }
        if is_among(&self.run, id) {
            return Ok(false);
        }
        Ok(self.rest.insert(id)?)
    }
}

// Whether the id is above all of some that ascend.
#[inline(always)]
fn is_above(run: &[Id], id: Id) -> bool
    requires { IsTrue (is_ascending id_cmp run.now) }
    ensures { result ≡ is_above run.now id }
{
    match run.last() {
        Some(last) => *last < id,
        None => true,
    }
}

// Whether the id is among some that ascend.
#[inline(never)]
fn is_among(run: &[Id], id: Id) -> bool
    requires { IsTrue (is_ascending id_cmp run.now) }
    ensures { result ≡ has_item id_cmp run.now id }
{
    run.binary_search(&id).is_ok()
}
