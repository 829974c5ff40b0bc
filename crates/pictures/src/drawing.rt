// The picture, piece by piece.
use crate::Event;
use crate::escape::escaped;
use crate::layout::{Layout, Point, lane_y, x};
use std::alloc::{AllocError, Global};
use std::fmt::Write;

const STYLE: &str =
    "<style>text{font:13px sans-serif;fill:#222}.desk{font-weight:bold}.deed{fill:#14507d}.shown{fill:#7a2e00;font-style:italic}line{stroke-width:1.5}.lane{stroke:#bbb}.letter{stroke:#2b7a3d}.met{stroke:#8a6d1d;stroke-width:3}circle.met{fill:#8a6d1d}circle.letter{fill:#2b7a3d}.lost{stroke:#b3261e}</style>";

const MARKER: &str =
    "<defs><marker id=\"tip\" viewBox=\"0 0 8 8\" refX=\"8\" refY=\"4\" markerWidth=\"7\" markerHeight=\"7\" orient=\"auto\"><path d=\"M0 0 8 4 0 8z\" fill=\"#2b7a3d\"/></marker></defs>";

// A letter that was made: where its line begins, on which line it ends, and whether it came.
#[derive(Clone, Copy)]
struct Letter {
    number: u64,
    start: Point,
    to: Point,
    came: bool,
}

impl Letter {
    fn goes_down(self) -> bool {
        self.to.y > self.start.y
    }
}

// What is written of the picture.
#[derive(Drop)]
struct Page {
    heap: Global,
    out: String,
}

impl Page {
    fn line(&mut self, class: &str, from: Point, to: Point, more: &str) -> Result<(), AllocError> {
        let Point { x: x1, y: y1 } = from;
        let Point { x: x2, y: y2 } = to;
        writeln!(
            self.out,
            "<line class=\"{class}\" x1=\"{x1}\" y1=\"{y1}\" x2=\"{x2}\" y2=\"{y2}\"{more}/>"
        )
    }

    fn text(&mut self, class: &str, at: Point, words: &str) -> Result<(), AllocError> {
        let Point { x, y } = at;
        let words = escaped(self.heap, words)?;
        writeln!(
            self.out,
            "<text class=\"{class}\" x=\"{x}\" y=\"{y}\" text-anchor=\"middle\">{words}</text>"
        )
    }

    fn dot(&mut self, at: Point, class: &str, radius: u64) -> Result<(), AllocError> {
        let Point { x, y } = at;
        writeln!(
            self.out,
            "<circle class=\"{class}\" cx=\"{x}\" cy=\"{y}\" r=\"{radius}\"/>"
        )
    }

    fn head(&mut self, width: u64, height: u64) -> Result<(), AllocError> {
        writeln!(
            self.out,
            "<svg xmlns=\"http://www.w3.org/2000/svg\" width=\"{width}\" height=\"{height}\" viewBox=\"0 0 {width} {height}\">"
        )?;
        writeln!(self.out, "{STYLE}{MARKER}")?;
        writeln!(
            self.out,
            "<rect width=\"100%\" height=\"100%\" fill=\"#fff\"/>"
        )
    }

    // A line for each desk, with its number in front.
    fn lanes(&mut self, layout: &Layout) -> Result<(), AllocError> {
        let end = layout.width().saturating_sub(16);
        for (lane, desk) in layout.lanes.iter().enumerate() {
            let y = lane_y(lane as u64);
            let name = format!(in self.heap; "desk {desk}")?;
            self.text("desk", Point { x: 34, y }.down(5), name.as_str())?;
            self.line("lane", Point { x: 66, y }, Point { x: end, y }, "")?;
        }
        Ok(())
    }

    // A letter that never came goes some way, and ends in a cross.
    fn lost(&mut self, letter: Letter) -> Result<(), AllocError> {
        let aside = letter.start.right(26);
        let end = if letter.goes_down() {
            aside.down(30)
        } else {
            aside.up(30)
        };
        self.line("letter", letter.start, end, "")?;
        self.line("lost", end.left(5).up(5), end.right(5).down(5), "")?;
        self.line("lost", end.left(5).down(5), end.right(5).up(5), "")
    }
}

#[derive(Drop)]
struct Picture {
    layout: Layout,
    letters: Vec<Letter>,
    page: Page,
}

impl Picture {
    fn deed(&mut self, column: u64, desk: u64, label: &str) -> Result<(), AllocError> {
        let at = self.layout.point(column, desk);
        self.page.dot(at, "deed", 5)?;
        self.page.text("deed", at.up(11), label)
    }

    fn shown(&mut self, column: u64, desk: u64, label: &str) -> Result<(), AllocError> {
        let at = self.layout.point(column, desk);
        self.page.text("shown", at.down(20), label)
    }

    fn made(&mut self, column: u64, number: u64, from: u64, to: u64) -> Result<(), AllocError> {
        let start = self.layout.point(column, from);
        self.page.dot(start, "letter", 2)?;
        self.letters.push(Letter {
            number,
            start,
            to: self.layout.point(column, to),
            came: false,
        })?;
        Ok(())
    }

    // An arrow to the line of the desk that a letter came to, which ends a little before it.
    fn came(&mut self, column: u64, number: u64) -> Result<(), AllocError> {
        let Some(letter) = self
            .letters
            .iter_mut()
            .find(|letter| letter.number == number)
        else {
            return Ok(());
        };
        letter.came = true;
        let letter = *letter;
        let line = Point {
            x: x(column),
            ..letter.to
        };
        let tip = if letter.goes_down() {
            line.up(4)
        } else {
            line.down(4)
        };
        self.page
            .line("letter", letter.start, tip, " marker-end=\"url(#tip)\"")
    }

    fn met(&mut self, column: u64, one: u64, other: u64) -> Result<(), AllocError> {
        let one = self.layout.point(column, one);
        let other = self.layout.point(column, other);
        self.page.line("met", one, other, "")?;
        self.page.dot(one, "met", 4)?;
        self.page.dot(other, "met", 4)
    }

    fn event(&mut self, column: u64, event: &Event) -> Result<(), AllocError> {
        match event {
            Event::Deed { desk, label } => self.deed(column, *desk, label.as_str()),
            Event::Shown { desk, label } => self.shown(column, *desk, label.as_str()),
            Event::Made { letter, from, to } => self.made(column, *letter, *from, *to),
            Event::Came { letter } => self.came(column, *letter),
            Event::Met { one, other } => self.met(column, *one, *other),
        }
    }

    fn lost_ones(&mut self) -> Result<(), AllocError> {
        for letter in self.letters.iter().filter(|letter| !letter.came) {
            self.page.lost(*letter)?;
        }
        Ok(())
    }
}

// The picture of a day.
pub fn draw(heap: Global, events: &[Event]) -> Result<String, AllocError> {
    let mut picture = Picture {
        layout: Layout::of(heap, events)?,
        letters: Vec::new(heap),
        page: Page {
            heap,
            out: String::new(heap),
        },
    };
    picture
        .page
        .head(picture.layout.width(), picture.layout.height())?;
    picture.page.lanes(&picture.layout)?;
    for (i, event) in events.iter().enumerate() {
        picture.event(i as u64, event)?;
    }
    picture.lost_ones()?;
    picture.page.out.push_str("</svg>\n")?;
    Ok(picture.page.out)
}
