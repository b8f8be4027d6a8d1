//! What a system may do with a slot's entries.
ghost use Rattle.std.specs.Prelude.{◌≡◌};
ghost use Rattle.eco_query.specs.Canonical.{access_text};

/// The access of a query's slot (Flecs manual, Queries, "Access modifiers"): `[in]`, `[out]`, `[inout]`, which holds where
/// a text says nothing, and `[none]`.
#[derive(Clone, Copy, Debug, PartialEq, Eq)]
pub enum Access {
    /// The slot's entries are read.
    In,
    /// They are written, and not read.
    Out,
    /// They are read and written.
    InOut,
    /// They are matched, and neither read nor written.
    InOutNone,
}

impl Access {
    // How a slot of this access begins in a canonical text.
    pub(crate) fn prefix(self) -> &'static str
        ensures { result.now ≡ access_text self }
    {
        match self {
            Access::In => "[in] ",
            Access::Out => "[out] ",
            Access::InOut => "",
            Access::InOutNone => "[none] ",
        }
    }
}
