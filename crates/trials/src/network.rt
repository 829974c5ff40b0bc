// Two desks that write under one key; and three desks whose letters are thrown away, read twice, or read late and in any order.
use crate::desk::{Desk, Kind, meet, pass};
use crate::model::{self, Deed, What};
use plans::Draw;
use std::test::Fail;

const ROUNDS: usize = 200;

const KEYS: u64 = 8;

#[derive(Drop)]
struct Letter {
    from: u64,
    to: u64,
    bytes: Vec<u8>,
}

#[derive(Drop)]
struct Network {
    draw: Draw,
    deeds: Vec<Deed>,
    late: Vec<Letter>,
}

impl Network {
    // A desk writes a word or adds an amount, and the deed is noted.
    fn act(&mut self, desk: &mut Desk) -> bool {
        let is_word = self.draw.below(2) == 0;
        let number = desk.next_number();
        let key = self.draw.below(KEYS);
        let value = self.draw.below(1000);
        let (kind, what) = if is_word {
            (Kind::Write, What::Word { key, word: value })
        } else {
            (Kind::Add, What::Amount { key, amount: value })
        };
        let deed = Deed {
            number,
            desk: desk.number,
            what,
        };
        desk.deed(kind, key, value) && self.deeds.push(deed).is_ok()
    }

    // What becomes of a letter: it is thrown away, read, read twice, or kept.
    fn carry(&mut self, letter: Letter, to: &mut Desk) -> bool {
        match self.draw.below(4) {
            0 => true,
            1 => to.hear(letter.from, &letter.bytes),
            2 => to.hear(letter.from, &letter.bytes) && to.hear(letter.from, &letter.bytes),
            _ => self.late.push(letter).is_ok(),
        }
    }

    fn mail(&mut self, from: &mut Desk, to: &mut Desk) -> bool {
        let Ok(bytes) = from.letter_for(to.number) else {
            return false;
        };
        let letter = Letter {
            from: from.number,
            to: to.number,
            bytes,
        };
        self.carry(letter, to)
    }

    // A desk reads one of the letters that were kept, if it is for it; the letter stays, and may be read again.
    fn late_mail(&mut self, desk: &mut Desk) -> bool {
        if self.late.is_empty() {
            return true;
        }
        let i = self.draw.below(self.late.len() as u64) as usize;
        let letter = &self.late[i];
        letter.to != desk.number || desk.hear(letter.from, &letter.bytes)
    }

    // What one desk does in a turn, with two others.
    fn turn(&mut self, desk: &mut Desk, left: &mut Desk, right: &mut Desk) -> bool {
        self.act(desk) && self.mail(desk, left) && self.mail(desk, right) && self.late_mail(desk)
    }

    // What the model says of a key.
    fn expected(&self, key: u64) -> (Option<u64>, u64) {
        (
            model::word(&self.deeds, key),
            model::tally(&self.deeds, key),
        )
    }

    // Whether a desk knows every deed, and shows of each key what the model says.
    fn is_shown_by(&self, desk: &mut Desk) -> bool {
        (0..KEYS).all(|key| desk.key(key) == Some(self.expected(key)))
            && desk.known() == self.deeds.len() as u64
    }
}

fn runs(network: &mut Network, a: &mut Desk, b: &mut Desk, c: &mut Desk) -> bool {
    (0..ROUNDS).all(|_| network.turn(a, b, c) && network.turn(b, c, a) && network.turn(c, a, b))
}

// Whether the three come to agree, and had something left to tell.
fn settle(a: &mut Desk, b: &mut Desk, c: &mut Desk) -> bool {
    !a.agrees_with(b)
        && !b.agrees_with(c)
        && meet(a, b).is_some()
        && meet(b, c).is_some()
        && meet(c, a).is_some()
}

fn three_agree(
    network: &mut Network,
    a: &mut Desk,
    b: &mut Desk,
    c: &mut Desk,
) -> Result<(), Fail> {
    if !runs(network, a, b, c) {
        return Err(Fail::new("a deed or a letter is refused"));
    }
    if !settle(a, b, c) {
        return Err(Fail::new("they don't come to agree"));
    }
    if !(network.is_shown_by(a) && network.is_shown_by(b) && network.is_shown_by(c)) {
        return Err(Fail::new("the model says something else"));
    }
    Ok(())
}

#[test]
fn letters_lost_doubled_and_late(rt: HostRuntime) -> Result<(), Fail> {
    let heap = rt.alloc();
    let mut a = Desk::opened(heap, 0)?;
    let mut b = Desk::opened(heap, 1)?;
    let mut c = Desk::opened(heap, 2)?;
    let mut network = Network {
        draw: Draw::new(1),
        deeds: Vec::new(heap),
        late: Vec::new(heap),
    };
    three_agree(&mut network, &mut a, &mut b, &mut c)
}

fn write_and_add(desk: &mut Desk, word: u64, amount: u64) -> bool {
    desk.deed(Kind::Write, 1, word) && desk.deed(Kind::Add, 1, amount)
}

#[test]
fn the_later_desk_wins_and_amounts_add_up(rt: HostRuntime) -> Result<(), Fail> {
    let mut first = Desk::opened(rt.alloc(), 0)?;
    let mut second = Desk::opened(rt.alloc(), 2)?;
    assert!(rt;
        write_and_add(&mut first, 7, 3)
            && write_and_add(&mut second, 9, 4)
            && pass(&mut second, &mut first)
    );
    assert_eq!(rt; first.key(1), Some((Some(9), 7)));
    assert_eq!(rt; second.key(1), Some((Some(9), 4)));
    Ok(())
}
