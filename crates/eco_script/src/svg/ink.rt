//! How texts are written.

/// How a text is written.
#[derive(Clone, Copy)]
pub enum Ink {
    /// What stands over others.
    Head,
    /// What is told.
    Plain,
    /// What is told beside.
    Faint,
    /// What parts.
    Warning,
}

impl Ink {
    // How the mark of such a text begins.
    pub(crate) fn text(self) -> &'static str {
        match self {
            Ink::Head => "<text class=\"head",
            Ink::Plain => "<text class=\"plain",
            Ink::Faint => "<text class=\"faint",
            Ink::Warning => "<text class=\"warning",
        }
    }
}
