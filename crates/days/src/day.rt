// A day: what happens at random, and in which order.
use crate::lines::Line;
use crate::post::Post;
use crate::{commands, lines};
use papers::Deed;
use plans::{Draw, Options, Summary, count};
use simulator::Room;
use std::alloc::{AllocError, Global};
use witnesses::{Difference, Stop, Witness};

#[derive(Drop)]
pub struct Day {
    pub(crate) heap: Global,
    options: Options,
    number: u64,
    draw: Draw,
    pub(crate) room: Room,
    // One for each desk.
    pub(crate) witnesses: Vec<Witness>,
    // Every deed that was done, in order.
    pub(crate) history: Vec<Deed>,
    pub(crate) post: Post,
    pub(crate) lines: Vec<Line>,
    pub(crate) summary: Summary,
}

// How many things go on: after a command three times in four a letter is made, one time in two a letter comes that was late, and one time in eight two
// desks meet. One time in sixteen the text is looked at in place of a command.
const LETTERS: u64 = 4;

const LATE_ONES: u64 = 2;

const MEETINGS: u64 = 8;

const LOOKS: u64 = 16;

fn witnesses(heap: Global, count: u64) -> Result<Vec<Witness>, AllocError> {
    (0..count)
        .map(|desk| Witness::new(heap, desk))
        .collect(heap)
}

impl Day {
    pub fn new(heap: Global, options: Options, number: u64) -> Result<Day, AllocError> {
        Ok(Day {
            heap,
            options,
            number,
            draw: Draw::of_day(options.seed, number),
            room: Room::new(heap)?,
            witnesses: witnesses(heap, options.company())?,
            history: Vec::new(heap),
            post: Post::new(heap),
            lines: Vec::new(heap),
            summary: Summary::nothing(),
        })
    }

    // Plays the day to its end, or to the first difference.
    pub fn run(&mut self) -> Result<Option<Difference>, AllocError> {
        count(&mut self.summary.days);
        match self.play() {
            Ok(()) => Ok(None),
            Err(Stop::Differs(mismatch)) => {
                count(&mut self.summary.differences);
                Ok(Some(Difference {
                    day: self.number,
                    event: self.summary.events,
                    mismatch,
                }))
            }
            Err(Stop::NoMemory | Stop::Missing) => Err(AllocError),
        }
    }

    pub fn summary(&self) -> Summary {
        self.summary
    }

    // What happened, as the text of a session.
    pub fn session(&self) -> Result<String, AllocError> {
        lines::session(self.heap, self.lines.as_slice())
    }

    fn play(&mut self) -> Result<(), Stop> {
        for _ in 0..self.options.deeds {
            self.turn()?;
        }
        self.late_letters()?;
        self.last_meetings()?;
        self.last_meetings()?;
        self.last_looks()
    }

    fn turn(&mut self) -> Result<(), Stop> {
        let desk = self.draw.below(self.options.company());
        if self.draw.below(LOOKS) == 0 {
            self.look(desk)?;
        } else {
            let shown = self.signs_shown(desk)?;
            let command = commands::command(&mut self.draw, shown);
            self.tell(desk, command)?;
        }
        if self.draw.below(LETTERS) > 0 {
            self.letter()?;
        }
        if self.draw.below(LATE_ONES) == 0 {
            self.late_letter()?;
        }
        if self.draw.below(MEETINGS) == 0 {
            let (one, other) = self.draw.pair(self.options.company());
            self.meet(one, other)?;
        }
        Ok(())
    }

    // A letter is made; it is lost, or comes now or later, or now and later.
    fn letter(&mut self) -> Result<(), Stop> {
        let (from, to) = self.draw.pair(self.options.company());
        let letter = self.send(from, to)?;
        if self.draw.happens(self.options.lose) {
            count(&mut self.summary.letters_lost);
            return Ok(());
        }
        if self.draw.happens(self.options.twice) {
            count(&mut self.summary.letters_doubled);
            self.post.keep(letter)?;
        }
        if self.draw.happens(self.options.late) {
            self.post.keep(letter)?;
            return Ok(());
        }
        self.read(letter)
    }

    // Some late letter comes, whichever it is.
    fn late_letter(&mut self) -> Result<(), Stop> {
        match self.post.any(&mut self.draw) {
            Some(letter) => self.read(letter),
            None => Ok(()),
        }
    }

    fn late_letters(&mut self) -> Result<(), Stop> {
        for _ in 0..self.post.waiting() {
            self.late_letter()?;
        }
        Ok(())
    }

    // The first desk meets each other. After the first time it knows all, and after the second all do.
    fn last_meetings(&mut self) -> Result<(), Stop> {
        for other in 1..self.options.company() {
            self.meet(0, other)?;
        }
        Ok(())
    }

    // All know all, and each shows what its witness says.
    fn last_looks(&mut self) -> Result<(), Stop> {
        for desk in 0..self.options.company() {
            self.knows_all(desk)?;
            self.compare(desk)?;
        }
        Ok(())
    }
}
