//! Pictures of the pairs between named entities.

use crate::pictures::pen::Pen;
use crate::pictures::plan::{HIGH, LOW, Plan, drawn_ids, named_pair, shown};
use crate::svg::{Ink, width_of};
use eco_ids::Entity;
use eco_world::World;
use std::alloc::{AllocError, Global};

// Where the box of an entity begins, in pixels from the left, and where the names in it and those of relationships do.
const BOX: u64 = 16;

const NAME: u64 = 22;

const RELATIONSHIP: u64 = 34;

// How far the foot of the letters is below the middle of their line.
const FOOT: u64 = 4;

// Where the box of an entity ends.
fn box_end(world: &World, entity: Entity) -> u64 {
    width_of(shown(world, entity)).saturating_add(NAME + 6)
}

impl Pen<'_> {
    // Draws the box of an entity.
    fn draw_node(&mut self, entity: Entity) -> Result<(), AllocError> {
        let world = self.world;
        let top = self.sheet.height();
        let width = box_end(world, entity).saturating_sub(BOX);
        self.sheet.rectangle(BOX, top.saturating_add(4), width, 18)?;
        self.sheet.skip(HIGH);
        let foot = top.saturating_add(HIGH / 2 + FOOT);
        self.sheet
            .text(NAME, foot, u64::MAX, Ink::Head, shown(world, entity))
    }

    // Draws a tie from a place to the box of a target.
    fn draw_tie(
        &mut self,
        plan: &Plan,
        from: (u64, u64),
        target: Entity,
    ) -> Result<(), AllocError> {
        let (lane, at) = plan.lane_to(target);
        let (end, foot) = (box_end(self.world, target), plan.middle_of(target));
        self.sheet.widen(at.saturating_add(16));
        self.sheet
            .tie(lane, at, from, (end.saturating_add(9), foot))?;
        self.sheet.arrow(end.saturating_add(1), foot)
    }

    // Draws a pair, and its tie to the target.
    fn draw_pair(
        &mut self,
        plan: &Plan,
        relationship: Entity,
        target: Entity,
    ) -> Result<(), AllocError> {
        let name = shown(self.world, relationship);
        let middle = self.sheet.height().saturating_add(LOW / 2);
        self.sheet.text(
            RELATIONSHIP,
            middle.saturating_add(FOOT),
            u64::MAX,
            Ink::Plain,
            name,
        )?;
        self.sheet.skip(LOW);
        let left = width_of(name).saturating_add(RELATIONSHIP + 6);
        self.draw_tie(plan, (left, middle), target)
    }

    // Draws the pairs of an entity.
    fn draw_pairs(&mut self, plan: &Plan, entity: Entity) -> Result<(), AllocError> {
        for id in drawn_ids(self.world, entity) {
            if let Some((relationship, target)) = named_pair(self.world, *id) {
                self.draw_pair(plan, relationship, target)?;
            }
        }
        Ok(())
    }

    // Draws all entities of a plan, each with its pairs.
    fn draw_entities(&mut self, plan: &Plan) -> Result<(), AllocError> {
        for entity in plan.nodes.as_slice() {
            self.draw_node(*entity)?;
            self.draw_pairs(plan, *entity)?;
        }
        Ok(())
    }

    // Draws all that there is to draw.
    fn draw_graph(&mut self, plan: &Plan) -> Result<(), AllocError> {
        if plan.nodes.is_empty() {
            self.sheet
                .line(0, Ink::Faint, "no named entity has a pair of named ones")
        } else {
            self.draw_entities(plan)
        }
    }
}

/// A picture of the pairs between the named entities of a world, as SVG: below each entity the relationships of its pairs, each
/// with a tie that leads to the target. All ties to a target share a lane. What the built-in entities have is left out.
///
/// `AllocError` comes where memory for it is refused.
pub fn graph_svg(alloc: Global, world: &World) -> Result<String, AllocError> {
    let mut pen = Pen::new(alloc, world);
    let plan = Plan::of(alloc, world, pen.sheet.height())?;
    pen.draw_graph(&plan)?;
    pen.sheet
        .svg("The pairs between the named entities of a world")
}
