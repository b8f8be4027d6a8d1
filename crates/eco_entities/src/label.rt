//! A name as it is kept.
ghost use Rattle.std.specs.Prelude.{◌≡◌, IfOk};
ghost use Rattle.eco_entities.specs.Label.{label_text};

use arrayvec::ArrayString;
use std::alloc::{AllocError, Global};

/// A name of at most 24 bytes, as most have. They lie in the value itself, so that a copy wants no memory for them.
pub(crate) type Short = ArrayString<24>;

/// A name, by its length.
pub(crate) enum Label {
    Short(Short),
    Long(String),
}

// By hand, so that dropping it is one call: a derived drop is proved anew at each early return of whoever holds it.
impl Drop for Label {
    fn drop(self) {
        match self {
            Label::Short(_) | Label::Long(_) => {}
        }
    }
}

impl Label {
    /// The name as it is kept. An `Err` comes where it is long and memory is refused.
    pub(crate) fn new(alloc: Global, text: &str) -> Result<Label, AllocError>
        ensures { IfOk result (λ l. label_text l ≡ text.now) }
    {
        match Short::from(text) {
            Ok(short) => Ok(Label::Short(short)),
            Err(_) => Ok(Label::Long(String::from_str(alloc, text)?)),
        }
    }

    pub(crate) fn as_str(&self) -> &str
        ensures { result.now ≡ label_text self.now }
    {
        match self {
            Label::Short(text) => text.as_str(),
            Label::Long(text) => text.as_str(),
        }
    }
}

impl Clone for Label {
    ghost is_clone = { λ l m. label_text m ≡ label_text l };

    fn clone(&self) -> Result<Label, AllocError> {
        match self {
            Label::Short(text) => Ok(Label::Short(*text)),
            Label::Long(text) => Ok(Label::Long(text.clone()?)),
        }
    }
}
