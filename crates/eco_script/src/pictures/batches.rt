//! Pictures of batches.

use crate::pictures::names::push_pattern;
use crate::pictures::pen::Pen;
use crate::pictures::reason::Reason;
use crate::svg::Ink;
use eco_frame::{Declared, sync_points_of};
use eco_ids::Pattern;
use eco_world::World;
use std::alloc::{AllocError, Global};

/// Systems by their positions of declaration: what they are called, and what they declare.
#[derive(Clone, Copy)]
pub struct NamedSystems<'a> {
    /// The names.
    pub names: &'a [&'a str],
    /// What the systems declare, in the same order.
    pub declared: &'a [Declared<'a>],
}

impl<'a> NamedSystems<'a> {
    // The name of the system at a position.
    fn name(&self, at: usize) -> &'a str {
        self.names.get(at).copied().unwrap_or("")
    }
}

// Adds what a system does with patterns, and the patterns.
fn push_patterns(
    text: &mut String,
    world: &World,
    what: &str,
    patterns: &[Pattern],
) -> Result<(), AllocError> {
    text.push_str(what)?;
    for (place, pattern) in patterns.iter().enumerate() {
        text.push_str(if place == 0 { " " } else { ", " })?;
        push_pattern(text, world, *pattern)?;
    }
    Ok(())
}

// Adds that a system reads what another writes.
fn push_writes(
    text: &mut String,
    world: &World,
    (writer, reader): (&str, &str),
    write: Pattern,
    read: Pattern,
) -> Result<(), AllocError> {
    let besides = if write.overlaps(read) {
        ""
    } else {
        ", and more by traits,"
    };
    write!(text, "{writer} writes ")?;
    push_pattern(text, world, write)?;
    write!(text, "{besides} and {reader} reads ")?;
    push_pattern(text, world, read)
}

// Adds why there is a sync point before the system at a position.
fn push_sync_point(
    text: &mut String,
    world: &World,
    listed: NamedSystems<'_>,
    reason: Option<Reason>,
    at: usize,
) -> Result<(), AllocError> {
    text.push_str("sync point: ")?;
    match reason {
        Some(Reason::Kills(place)) => {
            let name = listed.name(place);
            write!(text, "{name} deletes or clears entities")
        }
        Some(Reason::Traits(place)) => {
            let name = listed.name(place);
            write!(
                text,
                "{name} writes traits, so it and each behind it run alone"
            )
        }
        Some(
            Reason::Writes {
                writer,
                write,
                read,
            },
        ) => push_writes(
            text,
            world,
            (listed.name(writer), listed.name(at)),
            write,
            read,
        ),
        None => Ok(()),
    }
}

impl Pen<'_> {
    // Writes what a system reads or writes.
    fn write_patterns(&mut self, what: &str, patterns: &[Pattern]) -> Result<(), AllocError> {
        if patterns.is_empty() {
            return Ok(());
        }
        push_patterns(&mut self.text, self.world, what, patterns)?;
        self.write(14, Ink::Plain)
    }

    // Draws a system: its name, and what it declares.
    fn draw_system(&mut self, name: &str, system: &Declared) -> Result<(), AllocError> {
        let phase = system.phase;
        write!(self.text, "{phase:?}: {name}")?;
        self.write(0, Ink::Head)?;
        self.write_patterns("reads", system.query_reads)?;
        self.write_patterns("reads besides", system.body_reads)?;
        self.write_patterns("writes", system.writes)?;
        if system.kills {
            self.sheet
                .line(14, Ink::Plain, "deletes or clears entities")?;
        }
        Ok(())
    }

    // Draws a batch.
    fn draw_batch(&mut self, listed: NamedSystems<'_>, batch: &[usize]) -> Result<(), AllocError> {
        let top = self.sheet.open_frame();
        for at in batch {
            if let Some(system) = listed.declared.get(*at) {
                self.draw_system(listed.name(*at), system)?;
            }
        }
        self.sheet.close_frame(top)
    }

    // Draws a sync point, with what the text says of it.
    fn draw_sync_point(&mut self) -> Result<(), AllocError> {
        self.sheet.skip(8);
        self.sheet.rule(self.sheet.height())?;
        self.write(0, Ink::Warning)?;
        self.sheet.skip(6);
        Ok(())
    }

    // Draws the sync point between two batches, where `order` lists all systems to the last of the next batch, as they run.
    fn draw_between(
        &mut self,
        listed: NamedSystems<'_>,
        order: &[usize],
        batch: &[usize],
        next: &[usize],
    ) -> Result<(), AllocError> {
        let Some(at) = next.first() else {
            return Ok(());
        };
        let reason = Reason::find(self.alloc, self.world, listed.declared, order, batch, *at)?;
        push_sync_point(&mut self.text, self.world, listed, reason, *at)?;
        self.draw_sync_point()
    }

    // Draws all batches, with the sync points between them.
    fn draw_batches(
        &mut self,
        listed: NamedSystems<'_>,
        batches: &[Vec<usize>],
    ) -> Result<(), AllocError> {
        let mut order = Vec::new(self.alloc);
        let mut batch: &[usize] = &[];
        for next in batches {
            order.extend_from_slice(next.as_slice())?;
            if !batch.is_empty() {
                self.draw_between(listed, order.as_slice(), batch, next.as_slice())?;
            }
            self.draw_batch(listed, next.as_slice())?;
            batch = next.as_slice();
        }
        Ok(())
    }

    // Draws all that there is to draw.
    fn draw_frame(&mut self, listed: NamedSystems<'_>) -> Result<(), AllocError> {
        let batches = sync_points_of(self.alloc, self.world, listed.declared)?;
        if batches.is_empty() {
            self.sheet.line(0, Ink::Faint, "no system is declared")
        } else {
            self.draw_batches(listed, batches.as_slice())
        }
    }
}

/// A picture of the batches that a frame on this world would have, as SVG: of each system its phase, its name, and what it reads
/// and writes, and of each sync point what parts the system behind it from the batch before it.
///
/// `AllocError` comes where memory for it is refused.
pub fn batches_svg(
    alloc: Global,
    world: &World,
    systems: NamedSystems<'_>,
) -> Result<String, AllocError> {
    let mut pen = Pen::new(alloc, world);
    pen.draw_frame(systems)?;
    pen.sheet.svg("The batches of a frame")
}
