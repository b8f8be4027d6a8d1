//! How far a text has been read: the points of the reader, and what a byte does at them.
ghost use Rattle.std.specs.Prelude.{◌≡◌};
ghost use Rattle.eco_scan.specs.Reader.Machine.{takes_wildcard};
ghost use Rattle.eco_scan.specs.Reader.Points.{Draft, role_view};
ghost use Rattle.eco_scan.specs.declared.point.Mark.TheVariants as Mark;

use crate::written::{WrittenAtom, WrittenPart};
use eco_query::Access;

/// What stands before an atom: nothing or `||`, `!`, `?`; or nothing, and nothing may come behind it.
#[derive(Clone, Copy)]
pub enum Head {
    Plain,
    Not,
    Optional,
    Alone,
}

/// Which part it is: an atom of its own, the first or the second of a pair, or a reference that is all of the text.
#[derive(Clone, Copy)]
pub enum Role<'a> {
    Whole(Access, Head),
    First(Access, Head),
    Second(Access, Head, WrittenPart<'a>),
    Sole,
}

/// What is wanted between tokens.
#[derive(Clone, Copy)]
pub enum Spot<'a> {
    Slot,
    Word,
    Shut(Access),
    Body(Access),
    Atom(Access, Head),
    Part(Role<'a>),
    Behind(Role<'a>, WrittenPart<'a>),
    After(Access, Head, WrittenAtom<'a>),
}

/// Between tokens, or inside of one: some of an access word, one bar, some of a name or of a handle, with the place where
/// it begins.
#[derive(Clone, Copy)]
pub enum Point<'a> {
    At(Spot<'a>),
    Letters(usize),
    Bar(Access, WrittenAtom<'a>),
    Name(Role<'a>, usize),
    Hash(Role<'a>, usize),
    Index(Role<'a>, usize, u32),
    Dot(Role<'a>, usize, u32),
    Generation(Role<'a>, usize, u32, u16),
}

/// What a byte puts down: nothing, a slot's beginning, an alternative, or the last atom of a slot.
#[derive(Clone, Copy)]
pub enum Mark<'a> {
    Same,
    Begin,
    Other(Access, WrittenAtom<'a>),
    Slot(Access, Head, WrittenAtom<'a>),
}

/// What a byte does.
#[derive(Clone, Copy)]
pub struct Step<'a> {
    pub point: Point<'a>,
    pub mark: Mark<'a>,
}

impl<'a> Step<'a> {
    /// To a point, with nothing put down.
    pub fn to(point: Point<'a>) -> Step<'a>
        ensures { result ≡ record { point = point.entry; mark = Mark.Same } }
    {
        Step {
            point,
            mark: Mark::Same,
        }
    }
}

impl Role<'_> {
    /// Whether `*` and `_` may stand there.
    pub fn takes_wildcard(self) -> bool
        ensures { (d : Draft) → result ≡ takes_wildcard (role_view d self.entry) }
    {
        !matches!(self, Role::Sole)
    }
}
