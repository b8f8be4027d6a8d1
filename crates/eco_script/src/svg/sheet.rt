//! A sheet that is written from the top down.

use crate::svg::ink::Ink;
use crate::svg::marks::{push_escaped, push_mark};
use std::alloc::{AllocError, Global};

// How wide a letter is, in pixels. Each text says its own width, so it has it whatever the font.
const LETTER: u64 = 7;

// How high a line is, in pixels.
const LINE: u64 = 18;

// How wide a sheet is, in pixels, unless something is drawn further to the right. A telephone's screen shows it whole.
const WIDTH: u64 = 372;

// How far the frames are from the edges, in pixels, and how far a text from the frame round it.
const MARGIN: u64 = 8;

// How far the lines are from the frame above and below them, in pixels.
const PADDING: u64 = 4;

// How far the foot of the letters is from the top of their line, in pixels.
const FOOT: u64 = 13;

const STYLE: &str = "</title>
<style>
text { font: 12px monospace; fill: #1c2733 }
.head { font-weight: bold }
.faint { fill: #5b6b7b }
.warning { fill: #a03020 }
.frame { fill: none; stroke: #7f8c99 }
.rule { stroke: #a03020; stroke-dasharray: 4 3 }
.tie { fill: none; stroke-width: 1.5 }
</style>
<rect width=\"100%\" height=\"100%\" fill=\"#ffffff\"/>
";

/// A picture that is being drawn. Its lines stand one below another; texts and ties may be put anywhere besides.
pub struct Sheet {
    alloc: Global,
    body: String,
    width: u64,
    height: u64,
}

// By hand, as a pen's.
impl Drop for Sheet {
    fn drop(self) {
        let Sheet {
            alloc: _,
            body: _,
            width: _,
            height: _,
        } = self;
    }
}

/// How wide a text is, in pixels.
pub fn width_of(text: &str) -> u64 {
    (text.len() as u64).saturating_mul(LETTER)
}

impl Sheet {
    /// A sheet with nothing on it. What is drawn takes its memory from `alloc`.
    pub fn new(alloc: Global) -> Sheet {
        Sheet {
            alloc,
            body: String::new(alloc),
            width: WIDTH,
            height: MARGIN,
        }
    }

    /// Where the next line begins, in pixels from the top.
    pub fn height(&self) -> u64 {
        self.height
    }

    /// Leaves some pixels free below what was drawn.
    pub fn skip(&mut self, pixels: u64) {
        self.height = self.height.saturating_add(pixels);
    }

    /// Makes the sheet so wide, in pixels, if it is not.
    pub fn widen(&mut self, width: u64) {
        self.width = self.width.max(width);
    }

    // Draws a mark of SVG: how it begins, numbers with what stands before each, and how it ends.
    pub(crate) fn draw(
        &mut self,
        begin: &str,
        numbers: &[(&str, u64)],
        end: &str,
    ) -> Result<(), AllocError> {
        push_mark(&mut self.body, begin, numbers, end)
    }

    /// Writes a text whose letters stand on `foot`, in pixels from the top, and begin at `left`. It is squeezed where it is wider
    /// than `room`.
    pub fn text(
        &mut self,
        left: u64,
        foot: u64,
        room: u64,
        ink: Ink,
        text: &str,
    ) -> Result<(), AllocError> {
        let width = width_of(text).min(room);
        self.draw(
            ink.text(),
            &[
                ("\" x=\"", left),
                ("\" y=\"", foot),
                ("\" textLength=\"", width),
            ],
            "\" lengthAdjust=\"spacingAndGlyphs\">",
        )?;
        push_escaped(&mut self.body, text)?;
        self.body.push_str("</text>\n")
    }

    /// Writes the next line, so many pixels from the frame. It is squeezed where it is wider than the sheet.
    pub fn line(&mut self, indent: u64, ink: Ink, text: &str) -> Result<(), AllocError> {
        let left = indent.saturating_add(2 * MARGIN);
        let room = (WIDTH - 2 * MARGIN).saturating_sub(left);
        let foot = self.height.saturating_add(FOOT);
        self.skip(LINE);
        self.text(left, foot, room, ink, text)
    }

    // Begins the next line if a word that would begin at `left` is too wide for the rest of this one. Where the word begins.
    fn place_word(&mut self, first: u64, left: u64, width: u64) -> u64 {
        if left > first && left.saturating_add(width) > WIDTH - 2 * MARGIN {
            self.skip(LINE);
            first
        } else {
            left
        }
    }

    /// Writes the next lines, parted where the text has a space. Each word is a text of its own.
    pub fn paragraph(&mut self, indent: u64, ink: Ink, text: &str) -> Result<(), AllocError> {
        let first = indent.saturating_add(2 * MARGIN);
        let room = (WIDTH - 2 * MARGIN).saturating_sub(first);
        let mut left = first;
        for word in text.split(' ') {
            let width = width_of(word).min(room);
            left = self.place_word(first, left, width);
            self.text(left, self.height.saturating_add(FOOT), room, ink, word)?;
            left = left.saturating_add(width).saturating_add(LETTER);
        }
        self.skip(LINE);
        Ok(())
    }

    /// Where a frame begins that is to be drawn round the next lines, in pixels from the top.
    pub fn open_frame(&mut self) -> u64 {
        let top = self.height;
        self.skip(PADDING);
        top
    }

    /// Draws a frame that begins there, round all lines since.
    pub fn close_frame(&mut self, top: u64) -> Result<(), AllocError> {
        self.skip(PADDING);
        let height = self.height.saturating_sub(top);
        self.rectangle(MARGIN, top, WIDTH - 2 * MARGIN, height)
    }

    // Adds the picture as SVG.
    fn push_svg(&self, svg: &mut String, title: &str) -> Result<(), AllocError> {
        let height = self.height.saturating_add(MARGIN);
        push_mark(
            svg,
            "<svg xmlns=\"http://www.w3.org/2000/svg",
            &[
                ("\" width=\"", self.width),
                ("\" height=\"", height),
                ("\" viewBox=\"0 0 ", self.width),
                (" ", height),
            ],
            "\">\n<title>",
        )?;
        push_escaped(svg, title)?;
        let body = self.body.as_str();
        write!(svg, "{STYLE}{body}</svg>\n")
    }

    /// The picture as SVG, with a title for whoever does not see it.
    pub fn svg(&self, title: &str) -> Result<String, AllocError> {
        let mut svg = String::new(self.alloc);
        self.push_svg(&mut svg, title)?;
        Ok(svg)
    }
}
