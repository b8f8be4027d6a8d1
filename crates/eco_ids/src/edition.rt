//! Which rules a world keeps.
ghost use Rattle.std.specs.Prelude.{◌≡◌};
ghost use Rattle.eco_ids.specs.Edition as rules;

/// The rules that a world is made with. It never changes.
#[derive(Clone, Copy, Debug, PartialEq, Eq)]
pub enum Edition {
    /// Nine built-ins; a component's values have up to 4 fields.
    First,
    /// A tenth built-in, Symmetric, whose relationships keep a mirror of each pair; up to 8 fields.
    Second,
}

impl Edition {
    /// How many entities live from the start, at the first indices.
    pub fn builtin_count(self) -> u32
        ensures { result ≡ rules.builtin_count self }
    {
        match self {
            Edition::First => 9,
            Edition::Second => 10,
        }
    }

    /// The most fields that a component's values have. The least is 1.
    pub fn largest_arity(self) -> u8
        ensures { result ≡ rules.largest_arity self }
    {
        match self {
            Edition::First => 4,
            Edition::Second => 8,
        }
    }

    /// Whether relationships may be symmetric.
    pub fn has_symmetric(self) -> bool
        ensures { result ≡ rules.has_symmetric self }
    {
        match self {
            Edition::First => false,
            Edition::Second => true,
        }
    }
}
