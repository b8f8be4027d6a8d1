//! The marks that SVG is made of.

use std::alloc::AllocError;

// The name of a sign that XML has for itself.
fn escape(character: char) -> Option<&'static str> {
    match character {
        '&' => Some("&amp;"),
        '<' => Some("&lt;"),
        '>' => Some("&gt;"),
        '"' => Some("&quot;"),
        _ => None,
    }
}

/// Adds a text, with the names of XML in place of its own signs.
pub fn push_escaped(svg: &mut String, text: &str) -> Result<(), AllocError> {
    for character in text.chars() {
        match escape(character) {
            Some(name) => svg.push_str(name)?,
            None => svg.push(character)?,
        }
    }
    Ok(())
}

/// Adds how a mark begins, numbers with what stands before each, and how it ends.
pub(crate) fn push_mark(
    svg: &mut String,
    begin: &str,
    numbers: &[(&str, u64)],
    end: &str,
) -> Result<(), AllocError> {
    svg.push_str(begin)?;
    for (before, number) in numbers {
        write!(svg, "{before}{number}")?;
    }
    svg.push_str(end)
}
