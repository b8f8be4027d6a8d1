//! A slot of a query.
ghost use Rattle.std.specs.Prelude.{◌≡◌, IfOk, Some};
ghost use Rattle.eco_query.specs.Canonical.{slot_text};
ghost use Rattle.eco_query.specs.Queries.{holds, slot_view, term_view};

use crate::access::Access;
use crate::term::Term;
use eco_ids::TypeList;
use std::alloc::{AllocError, Global};
use std::fmt;

/// A slot of a query: what it asks, and what a system may do with its entries.
///
/// A slot prints as a query's text has it: `[in] #9.0`, or `!(#11.0, *)` where its access is `[inout]`.
#[derive(Debug, PartialEq, Eq, Drop)]
pub struct Slot {
    pub access: Access,
    pub term: Term,
}

impl Slot {
    /// Whether it holds on an entity of this type.
    pub fn holds(&self, ids: &TypeList) -> bool
        ensures { result ≡ holds ids.now (term_view self.now.term) }
    {
        self.term.holds(ids)
    }

    /// The same slot once more. `AllocError` is the want of memory for its alternatives.
    pub fn try_copy(&self, alloc: Global) -> Result<Slot, AllocError>
        ensures { IfOk result (λ slot. slot_view slot ≡ slot_view self.now) }
    {
        Ok(Slot {
            access: self.access,
            term: self.term.try_copy(alloc)?,
        })
    }
}

impl fmt::Display for Slot {
    ghost output = { λ slot. Some (slot_text (slot_view slot)) };

    fn fmt<W: fmt::Write>(&self, f: &mut fmt::Formatter<W>) -> fmt::Result {
        let access = self.access.prefix();
        let term = &self.term;
        write!(f, "{access}{term}")
    }
}
