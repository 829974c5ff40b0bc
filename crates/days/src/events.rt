// What can happen in a day, one event at a time: it is played in the room and told to the witnesses, and then what the desk shows is compared.
use crate::day::Day;
use crate::lines::Line;
use crate::post::Mail;
use desks::Refusal;
use papers::{Command, Deed};
use plans::count;
use simulator::{Answer, Command as Told, Item};
use witnesses::{KEYS, Row, Sight, Stop, TEXT_IS_KNOWN, Witness, expect, key_shown};

// What comes of an item in the room.
type Outcome = Result<Answer, Refusal>;

// Where signs are not known, commands about them are for a text of so many.
const SIGNS_UNKNOWN: u64 = 6;

// A letter has to bring all that its writer knew where that is not more than this.
const SURELY_BROUGHT: usize = 16;

// Where a row is wrong of some desk, what is known of that one.
fn expect_of(desk: u64, right: &Row, row: &Row, wrong: Option<u64>) -> Result<(), Stop> {
    match wrong {
        Some(of) => expect(desk, knows(right, of), knows(row, of)),
        None => Ok(()),
    }
}

// Of no desk more is known than is right.
fn expect_no_more(desk: u64, most: &Row, row: &Row) -> Result<(), Stop> {
    expect_of(desk, most, row, row.first_above(most))
}

// Of no desk less is known than is right.
fn expect_no_less(desk: u64, least: &Row, row: &Row) -> Result<(), Stop> {
    expect_of(desk, least, row, least.first_above(row))
}

fn knows(row: &Row, of: u64) -> Sight {
    Sight::Knows {
        of,
        number: row.of(of),
    }
}

impl Day {
    fn witness(&self, desk: u64) -> Result<&Witness, Stop> {
        self.witnesses.get(desk as usize).ok_or(Stop::Missing)
    }

    fn witness_mut(&mut self, desk: u64) -> Result<&mut Witness, Stop> {
        self.witnesses.get_mut(desk as usize).ok_or(Stop::Missing)
    }

    // How many signs a desk shows.
    pub(crate) fn signs_shown(&self, desk: u64) -> Result<u64, Stop> {
        if !TEXT_IS_KNOWN {
            return Ok(SIGNS_UNKNOWN);
        }
        let text = self.witness(desk)?.paper.text(self.heap)?;
        Ok(text.len() as u64)
    }

    // What comes of an item that is played.
    fn outcome(&mut self, item: Item) -> Result<Outcome, Stop> {
        count(&mut self.summary.events);
        count(&mut self.summary.compared);
        Ok(self.room.play(self.heap, item)?)
    }

    // An item is played, and answered with this.
    fn plays(&mut self, desk: u64, item: Item, expected: Sight) -> Result<(), Stop> {
        let outcome = self.outcome(item)?;
        expect(desk, expected, Sight::from(outcome))
    }

    // A command at a desk.
    pub(crate) fn tell(&mut self, desk: u64, command: Command) -> Result<(), Stop> {
        let item = Item::At {
            desk,
            command: Told::Do(witnesses::told(command)),
        };
        self.lines.push(Line::Does { desk, command })?;
        match self.witness(desk)?.expected(command) {
            Ok(deed) => {
                self.plays(desk, item, Sight::Done)?;
                self.done(desk, command, deed)?;
            }
            Err(sight) => {
                self.lines.push(Line::Expects { desk, sight })?;
                self.plays(desk, item, sight)?;
                self.refused(desk, command, sight)?;
            }
        }
        self.compare(desk)
    }

    // A deed was done, and its witness hears of it.
    fn done(&mut self, desk: u64, command: Command, deed: Deed) -> Result<(), Stop> {
        let heap = self.heap;
        self.witness_mut(desk)?.does(heap, command, deed)?;
        self.history.push(deed)?;
        count(&mut self.summary.deeds);
        self.same_row(desk)
    }

    fn refused(&mut self, desk: u64, command: Command, refusal: Sight) -> Result<(), Stop> {
        let heap = self.heap;
        self.witness_mut(desk)?.refuses(heap, command, refusal)?;
        count(&mut self.summary.refused);
        self.same_row(desk)
    }

    // Somebody looks at the text.
    pub(crate) fn look(&mut self, desk: u64) -> Result<(), Stop> {
        let sight = Sight::from(Refusal::Unknown);
        let item = Item::At {
            desk,
            command: Told::ShowText,
        };
        self.lines.push(Line::ShowsText { desk })?;
        self.lines.push(Line::Expects { desk, sight })?;
        self.plays(desk, item, sight)?;
        self.compare(desk)
    }

    // A letter is made; its number.
    pub(crate) fn send(&mut self, from: u64, to: u64) -> Result<u64, Stop> {
        let letter = self.room.letters();
        self.lines.push(Line::Sends {
            desk: from,
            to,
            letter,
        })?;
        self.plays(from, Item::Makes { from, to }, Sight::Done)?;
        let witness = self.witness(from)?;
        let mail = Mail {
            from,
            to,
            row: witness.row,
            known: witness.paper.len(),
            plain: witness.plain.letter(self.heap)?,
        };
        self.post.mails.push(mail)?;
        self.count_letter(letter);
        self.same_row(from)?;
        self.compare(from)?;
        Ok(letter)
    }

    fn count_letter(&mut self, letter: u64) {
        count(&mut self.summary.letters_made);
        if let Some(letter) = self.room.letter(letter) {
            let bytes = self
                .summary
                .letter_bytes
                .saturating_add(letter.bytes.len() as u64);
            self.summary.letter_bytes = bytes;
        }
    }

    // A letter comes, for the first time or again.
    pub(crate) fn read(&mut self, letter: u64) -> Result<(), Stop> {
        let mail = self.post.mail(letter).ok_or(Stop::Missing)?;
        let (desk, from) = (mail.to, mail.from);
        self.lines.push(Line::Reads { desk, from, letter })?;
        self.plays(desk, Item::Comes { letter }, Sight::Done)?;
        count(&mut self.summary.letters_come);
        self.takes_in(desk, letter)?;
        self.compare(desk)
    }

    // What was known is known, what is new the writer knew, and where it knew few, all that it knew is known.
    fn takes_in(&mut self, desk: u64, letter: u64) -> Result<(), Stop> {
        let mail = self.post.mail(letter).ok_or(Stop::Missing)?;
        let witness = self.witnesses.get_mut(desk as usize).ok_or(Stop::Missing)?;
        let row = Row::at(&self.room, desk);
        expect_no_less(desk, &witness.row, &row)?;
        expect_no_more(desk, &witness.row.joined(&mail.row), &row)?;
        if mail.known <= SURELY_BROUGHT {
            expect_no_less(desk, &mail.row, &row)?;
        }
        witness.hears(self.history.as_slice(), row)?;
        witness.plain.hear(mail.plain.as_slice())?;
        self.same_count(desk)
    }

    // Two desks meet: both then know what either knew.
    pub(crate) fn meet(&mut self, one: u64, other: u64) -> Result<(), Stop> {
        self.lines.push(Line::Meets { one, other })?;
        let all = self.witness(one)?.row.joined(&self.witness(other)?.row);
        let outcome = self.outcome(Item::Meets { one, other })?;
        expect(one, Sight::Met, Sight::from(outcome))?;
        self.count_meeting(outcome);
        self.learns(one, all)?;
        self.learns(other, all)?;
        self.meet_plainly(one, other)?;
        self.compare(one)?;
        self.compare(other)
    }

    fn count_meeting(&mut self, outcome: Outcome) {
        count(&mut self.summary.meetings);
        if let Ok(Answer::Met { pairs: _, bytes }) = outcome {
            self.summary.meeting_bytes = self.summary.meeting_bytes.saturating_add(bytes);
        }
    }

    // A desk knows precisely the deeds of a row.
    fn learns(&mut self, desk: u64, all: Row) -> Result<(), Stop> {
        let witness = self.witnesses.get_mut(desk as usize).ok_or(Stop::Missing)?;
        witness.hears(self.history.as_slice(), all)?;
        self.same_row(desk)
    }

    // The plain desks of two that meet send each other all they have.
    fn meet_plainly(&mut self, one: u64, other: u64) -> Result<(), Stop> {
        let there = self.witness(one)?.plain.letter(self.heap)?;
        let back = self.witness(other)?.plain.letter(self.heap)?;
        self.hears_plainly(other, there.as_slice())?;
        self.hears_plainly(one, back.as_slice())
    }

    fn hears_plainly(&mut self, desk: u64, letter: &[Deed]) -> Result<(), Stop> {
        self.witness_mut(desk)?.plain.hear(letter)?;
        Ok(())
    }

    // The machine says that it knows what its paper has heard of.
    fn same_row(&mut self, desk: u64) -> Result<(), Stop> {
        let row = Row::at(&self.room, desk);
        let heard = self.witness(desk)?.row;
        expect_no_less(desk, &heard, &row)?;
        expect_no_more(desk, &heard, &row)?;
        self.same_count(desk)
    }

    // The machine knows as many deeds as its paper.
    fn same_count(&mut self, desk: u64) -> Result<(), Stop> {
        let known = self.room.known(desk).ok_or(Stop::Missing)?;
        let heard = self.witness(desk)?.paper.len();
        count(&mut self.summary.compared);
        expect(desk, Sight::Count(heard as u64), Sight::Count(known as u64))
    }

    // At the end: a desk knows all deeds that were done, and so does its plain desk.
    pub(crate) fn knows_all(&mut self, desk: u64) -> Result<(), Stop> {
        let all = Sight::Count(self.history.len() as u64);
        let witness = self.witness(desk)?;
        expect(desk, all, Sight::Count(witness.paper.len() as u64))?;
        expect(desk, all, Sight::Count(witness.plain.len() as u64))?;
        self.same_row(desk)
    }

    // Whether a desk shows what its witness says, under all keys.
    pub(crate) fn compare(&mut self, desk: u64) -> Result<(), Stop> {
        for key in KEYS {
            self.compare_key(desk, key)?;
        }
        Ok(())
    }

    fn compare_key(&mut self, desk: u64, key: u64) -> Result<(), Stop> {
        let witness = self.witness(desk)?;
        let sight = witness.paper_key(key);
        let plain = witness.plain_key(key);
        self.lines.push(Line::ShowsKey { desk, key })?;
        self.lines.push(Line::Expects { desk, sight })?;
        let shown = key_shown(self.heap, &mut self.room, desk, key)?;
        count(&mut self.summary.compared);
        expect(desk, sight, shown)?;
        if let Some(plain) = plain {
            count(&mut self.summary.compared);
            expect(desk, plain, shown)?;
        }
        Ok(())
    }
}
