// Commands at random.
use papers::Command;
use plans::Draw;
use witnesses::KEYS;

// Of a hundred commands so many are about signs.
const TEXT_SHARE: u64 = 6;

// Of a hundred words and amounts so many are as large as they may be.
const LARGE_SHARE: u64 = 3;

const LARGEST: u64 = 4_294_967_295;

// Most words and amounts are below this.
const SMALL: u64 = 1000;

// The first of the signs that are put in, and how many there are of them.
const FIRST_SIGN: u64 = 97;

const SIGNS: u64 = 26;

fn key(draw: &mut Draw) -> u64 {
    let place = draw.below(KEYS.len() as u64);
    KEYS.get(place as usize).copied().unwrap_or(0)
}

// A word or an amount.
fn value(draw: &mut Draw) -> u64 {
    if draw.happens(LARGE_SHARE) {
        LARGEST
    } else {
        draw.below(SMALL)
    }
}

// About signs, where so many are shown: mostly at a place that there is.
fn text_command(draw: &mut Draw, shown: u64) -> Command {
    let place = draw.below(shown.saturating_add(2));
    if draw.below(3) == 0 {
        return Command::Strike { place };
    }
    let sign = FIRST_SIGN + draw.below(SIGNS);
    Command::Insert { place, sign }
}

pub fn command(draw: &mut Draw, shown: u64) -> Command {
    if draw.happens(TEXT_SHARE) {
        return text_command(draw, shown);
    }
    let key = key(draw);
    let value = value(draw);
    if draw.below(2) == 0 {
        Command::Write { key, word: value }
    } else {
        Command::Add { key, amount: value }
    }
}
