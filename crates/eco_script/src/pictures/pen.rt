//! What draws a picture of a world.

use crate::svg::{Ink, Sheet};
use eco_world::World;
use std::alloc::{AllocError, Global};

/// What draws a picture of a world: a sheet, and the text that is written next.
pub(crate) struct Pen<'a> {
    pub world: &'a World,
    pub alloc: Global,
    pub sheet: Sheet,
    pub text: String,
}

// By hand, so that dropping it is one call: a derived drop is proved anew at each early return of whoever holds it.
impl Drop for Pen<'_> {
    fn drop(self) {
        let Pen {
            world: _,
            alloc: _,
            sheet: _,
            text: _,
        } = self;
    }
}

impl<'a> Pen<'a> {
    /// A pen over an empty sheet.
    pub fn new(alloc: Global, world: &'a World) -> Pen<'a> {
        Pen {
            world,
            alloc,
            sheet: Sheet::new(alloc),
            text: String::new(alloc),
        }
    }

    /// Writes the text below what was written, and begins another.
    pub fn write(&mut self, indent: u64, ink: Ink) -> Result<(), AllocError> {
        self.sheet.paragraph(indent, ink, self.text.as_str())?;
        self.text.clear();
        Ok(())
    }
}
