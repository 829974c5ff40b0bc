// What desks should show, from the deeds that were done: plain and slow, and nothing of it is shared with the desks.
#[derive(Clone, Copy)]
pub enum What {
    Word { key: u64, word: u64 },
    Amount { key: u64, amount: u64 },
}

#[derive(Clone, Copy)]
pub struct Deed {
    pub number: u64,
    pub desk: u64,
    pub what: What,
}

// The newest word under a key.
pub fn word(deeds: &[Deed], key: u64) -> Option<u64> {
    deeds
        .iter()
        .filter_map(|deed| match deed.what {
            What::Word { key: at, word } if at == key => Some((deed.number, deed.desk, word)),
            _ => None,
        })
        .max_by_key(|(number, desk, _)| (*number, *desk))
        .map(|(_, _, word)| word)
}

// The sum of what was added to a key.
pub fn tally(deeds: &[Deed], key: u64) -> u64 {
    deeds
        .iter()
        .filter_map(|deed| match deed.what {
            What::Amount { key: at, amount } if at == key => Some(amount),
            _ => None,
        })
        .fold(0, u64::wrapping_add)
}
