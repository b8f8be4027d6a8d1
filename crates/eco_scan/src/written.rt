//! What stands in a text, before its names are looked up.
ghost use Rattle.std.specs.Prelude.{◌≡◌};
ghost use Rattle.eco_scan.specs.Reader.Machine as machine;
ghost use Rattle.eco_scan.specs.Grammar.{has_wildcard, is_lone_wildcard, is_wildcard};
ghost use Rattle.eco_scan.specs.Views.{atom_view, part_view};

/// What names an entity.
#[derive(Clone, Copy)]
pub enum Reference<'a> {
    Name(&'a [u8]),
    Handle(u32, u16),
}

/// A part of an atom; of a name or a handle, where it begins.
#[derive(Clone, Copy)]
pub enum WrittenPart<'a> {
    Named(usize, Reference<'a>),
    Each,
    Any,
}

/// A single id or a pair.
#[derive(Clone, Copy)]
pub enum WrittenAtom<'a> {
    Single(WrittenPart<'a>),
    Pair(WrittenPart<'a>, WrittenPart<'a>),
}

impl<'a> WrittenPart<'a> {
    /// What a word that begins there names: `_` is a wildcard.
    pub fn of_word(at: usize, word: &'a [u8]) -> WrittenPart<'a>
        ensures { part_view result ≡ machine.part_of_word at word.now }
    {
        if word == b"_".as_slice() {
            WrittenPart::Any
        } else {
            WrittenPart::Named(at, Reference::Name(word))
        }
    }

    /// Whether it is `*` or `_`.
    pub fn is_wildcard(self) -> bool
        ensures { result ≡ is_wildcard (part_view self.entry) }
    {
        matches!(self, WrittenPart::Each | WrittenPart::Any)
    }
}

impl WrittenAtom<'_> {
    /// Whether one of its parts is `*` or `_`.
    pub fn has_wildcard(self) -> bool
        ensures { result ≡ has_wildcard (atom_view self.entry) }
    {
        match self {
            WrittenAtom::Single(part) => part.is_wildcard(),
            WrittenAtom::Pair(relationship, target) => {
                relationship.is_wildcard() || target.is_wildcard()
            }
        }
    }

    /// Whether it is a single wildcard.
    pub fn is_lone_wildcard(self) -> bool
        ensures { result ≡ is_lone_wildcard (atom_view self.entry) }
    {
        match self {
            WrittenAtom::Single(part) => part.is_wildcard(),
            WrittenAtom::Pair(_, _) => false,
        }
    }
}
