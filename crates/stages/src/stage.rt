// A stage: a room, the names that the session gave its letters, and what each desk showed last.
use crate::trouble::Trouble;
use commands::Command;
use desks::{DESKS, Refusal};
use pictures::Event;
use replicas::Deed;
use sessions::Line;
use simulator::{Answer, Item, Room};
use std::alloc::Global;
use std::collections::BTreeMap;

const VERSION: u64 = 1;

// What comes of a line.
#[derive(Debug, Drop, PartialEq, Eq)]
pub enum Said {
    Nothing,
    Shows { desk: u64, text: String },
    // Something else was expected.
    Differs { desk: u64, text: String },
}

#[derive(Drop)]
pub struct Stage {
    heap: Global,
    room: Room,
    // The letters of the session: a name is the last one's that was given it.
    letters: BTreeMap<String, u64>,
    // What each desk showed last.
    shown: BTreeMap<u64, String>,
    events: Vec<Event>,
    begun: bool,
}

impl Stage {
    pub fn new(heap: Global) -> Result<Stage, Trouble> {
        Ok(Stage {
            heap,
            room: Room::new(heap)?,
            letters: BTreeMap::new(heap),
            shown: BTreeMap::new(heap),
            events: Vec::new(heap),
            begun: false,
        })
    }

    pub fn events(&self) -> &[Event] {
        self.events.as_slice()
    }

    // Plays a line.
    pub fn line(&mut self, text: &str) -> Result<Said, Trouble> {
        let line = sessions::parse(text)?;
        match line {
            Line::Nothing => Ok(Said::Nothing),
            Line::Version(version) => self.begin(version),
            _ if !self.begun => Err(Trouble::NoSession),
            Line::At { desk, .. } if desk >= DESKS => Err(Trouble::NoDesk),
            Line::At { desk, command } => self.at(desk, command),
            Line::Meet { one, other } => self.meet(one, other),
            Line::Expect { desk, text } => self.expect(desk, text),
        }
    }

    fn begin(&mut self, version: u64) -> Result<Said, Trouble> {
        if version != VERSION {
            return Err(Trouble::OtherVersion(version));
        }
        self.begun = true;
        Ok(Said::Nothing)
    }

    fn at(&mut self, desk: u64, command: Command) -> Result<Said, Trouble> {
        match command {
            Command::Insert { place, sign } => {
                self.deed(desk, command, Deed::Insert { place, sign })
            }
            Command::Strike { place } => self.deed(desk, command, Deed::Strike { place }),
            Command::Write { key, word } => self.deed(desk, command, Deed::Write { key, word }),
            Command::Add { key, amount } => self.deed(desk, command, Deed::Add { key, amount }),
            Command::ShowText => self.ask(desk, simulator::Command::ShowText),
            Command::ShowKey { key } => self.ask(desk, simulator::Command::ShowKey(key)),
            Command::Send { desk: to, file } => self.send(desk, to, file),
            Command::Read { desk: from, file } => self.read(desk, from, file),
        }
    }

    fn play(&mut self, item: Item) -> Result<Result<Answer, Refusal>, Trouble> {
        Ok(self.room.play(self.heap, item)?)
    }

    // Plays an item of which nothing is shown; it is refused, or noted for the picture.
    fn happens(&mut self, desk: u64, item: Item, event: Event) -> Result<Said, Trouble> {
        if let Err(refusal) = self.play(item)? {
            return self.refused(desk, refusal);
        }
        self.events.push(event)?;
        Ok(Said::Nothing)
    }

    fn deed(&mut self, desk: u64, command: Command, deed: Deed) -> Result<Said, Trouble> {
        let label = format!(in self.heap; "{command}")?;
        let item = Item::At {
            desk,
            command: simulator::Command::Do(deed),
        };
        self.happens(desk, item, Event::Deed { desk, label })
    }

    fn ask(&mut self, desk: u64, command: simulator::Command) -> Result<Said, Trouble> {
        match self.play(Item::At { desk, command })? {
            Ok(Answer::Key(key)) => {
                let text = answers::key_answer(self.heap, key.word, key.tally)?;
                self.shows(desk, text)
            }
            Err(refusal) => self.refused(desk, refusal),
            Ok(_) => Err(Trouble::NoAnswer),
        }
    }

    fn refused(&mut self, desk: u64, refusal: Refusal) -> Result<Said, Trouble> {
        let text = format!(in self.heap; "refused {refusal}")?;
        self.shows(desk, text)
    }

    fn shows(&mut self, desk: u64, text: String) -> Result<Said, Trouble> {
        let label = text.clone()?;
        self.events.push(Event::Shown { desk, label })?;
        self.shown.insert(desk, text.clone()?)?;
        Ok(Said::Shows { desk, text })
    }

    // What a desk showed last; nothing, if it never showed anything.
    fn last(&self, desk: u64) -> &str {
        self.shown.get(&desk).map_or("", |text| text.as_str())
    }

    fn send(&mut self, desk: u64, to: u64, name: &str) -> Result<Said, Trouble> {
        match self.play(Item::Makes { from: desk, to })? {
            Err(refusal) => self.refused(desk, refusal),
            Ok(_) => {
                let letter = self.room.letters().saturating_sub(1);
                self.events.push(Event::Made {
                    letter,
                    from: desk,
                    to,
                })?;
                let name = String::from_str(self.heap, name)?;
                self.letters.insert(name, letter)?;
                Ok(Said::Nothing)
            }
        }
    }

    // Whether a letter goes from one desk to another.
    fn goes(&self, letter: u64, from: u64, to: u64) -> bool {
        self.room
            .letter(letter)
            .is_some_and(|letter| letter.from == from && letter.to == to)
    }

    fn read(&mut self, desk: u64, from: u64, name: &str) -> Result<Said, Trouble> {
        let letter = self.letters.get(name).copied().ok_or(Trouble::NoLetter)?;
        if !self.goes(letter, from, desk) {
            // a letter of others, or for others
            return self.refused(desk, Refusal::Malformed);
        }
        self.happens(desk, Item::Comes { letter }, Event::Came { letter })
    }

    fn meet(&mut self, one: u64, other: u64) -> Result<Said, Trouble> {
        match self.play(Item::Meets { one, other })? {
            Ok(Answer::Met { .. }) => {
                self.events.push(Event::Met { one, other })?;
                Ok(Said::Nothing)
            }
            _ => Err(Trouble::NotTwoDesks),
        }
    }

    fn expect(&mut self, desk: u64, expected: &str) -> Result<Said, Trouble> {
        if desk >= DESKS {
            return Err(Trouble::NoDesk);
        }
        let last = self.last(desk);
        if last == expected {
            return Ok(Said::Nothing);
        }
        let text = String::from_str(self.heap, last)?;
        Ok(Said::Differs { desk, text })
    }
}
