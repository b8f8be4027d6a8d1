//! What is drawn between lines.

use crate::svg::sheet::Sheet;
use std::alloc::AllocError;

// How the marks of ties begin, by lanes: each has another colour than the one beside it.
const TIES: [&str; 6] = [
    "<path class=\"tie\" stroke=\"#2463b0",
    "<path class=\"tie\" stroke=\"#b5541c",
    "<path class=\"tie\" stroke=\"#2f7d3b",
    "<path class=\"tie\" stroke=\"#8a3a9c",
    "<path class=\"tie\" stroke=\"#87700c",
    "<path class=\"tie\" stroke=\"#0f7f86",
];

impl Sheet {
    /// Draws a rectangle, in pixels.
    pub fn rectangle(
        &mut self,
        left: u64,
        top: u64,
        width: u64,
        height: u64,
    ) -> Result<(), AllocError> {
        self.draw(
            "<rect class=\"frame\" rx=\"4",
            &[
                ("\" x=\"", left),
                ("\" y=\"", top),
                ("\" width=\"", width),
                ("\" height=\"", height),
            ],
            "\"/>\n",
        )
    }

    // Draws a dot, at a place in pixels.
    fn dot(&mut self, left: u64, middle: u64) -> Result<(), AllocError> {
        self.draw(
            "<circle r=\"3",
            &[("\" cx=\"", left), ("\" cy=\"", middle)],
            "\"/>\n",
        )
    }

    /// Draws a tie from one place along a lane, which is a line from top to bottom, to another, with a dot where it meets the
    /// lane. Places and the lane are in pixels; the number of the lane, from 0, says its colour.
    pub fn tie(
        &mut self,
        lane: usize,
        at: u64,
        from: (u64, u64),
        to: (u64, u64),
    ) -> Result<(), AllocError> {
        self.draw(
            TIES[lane % 6],
            &[
                ("\" d=\"M", from.0),
                (" ", from.1),
                ("H", at),
                ("V", to.1),
                ("H", to.0),
            ],
            "\"/>\n",
        )?;
        self.dot(at, from.1)
    }

    /// Draws the head of an arrow that points to the left, at a place in pixels.
    pub fn arrow(&mut self, left: u64, middle: u64) -> Result<(), AllocError> {
        self.draw(
            "<path d=\"",
            &[("M", left), (" ", middle)],
            "l8 -4v8z\"/>\n",
        )
    }

    /// Draws a broken line from edge to edge, so many pixels from the top.
    pub fn rule(&mut self, middle: u64) -> Result<(), AllocError> {
        self.draw(
            "<path class=\"rule\" d=\"",
            &[("M8 ", middle)],
            "H364\"/>\n",
        )
    }
}
