// What stands under a key: a word, of which the newest counts, and a tally.
ghost use Rattle.std.specs.Prelude.{◌≡◌};
ghost use Rattle.std.specs.Option.{option_to_list};
ghost use Rattle.ops.specs.Doc.{count_of, word_at, count_at};
ghost use Rattle.papers.specs.Deeds.{kind_of};
ghost use Rattle.papers.specs.Papers.{deeds_of};
ghost use Rattle.papers.specs.Words.{written_under, named_word};

use crate::deeds::{Deed, Name, What};
use crate::paper::Paper;

impl What {
    // What this adds to a key's tally.
    #[tactic(auto, unfolding(ops::specs::Doc::count_of))]
    pub fn added_to(self, key: u64) -> u64
        ensures { result ≡ count_of key (kind_of self) }
    {
        match self {
            What::Add { key: at, amount } if at == key => amount,
            _ => 0,
        }
    }

    // The word that this writes under a key, if it does.
    pub fn written_under(self, key: u64) -> Option<u64>
        ensures { result ≡ written_under key self }
    {
        match self {
            What::Write { key: at, word } if at == key => Some(word),
            _ => None,
        }
    }
}

impl Deed {
    // The word that this writes under a key, with the name that it is known by.
    fn named_word(&self, key: u64) -> Option<(Name, u64)>
        ensures { result ≡ named_word key self.now }
    {
        Some((self.name, self.what.written_under(key)?))
    }
}

impl Paper {
    // The newest word under a key, if any was written.
    pub fn word(&self, key: u64) -> Option<u64>
        ensures { option_to_list result ≡ word_at (deeds_of self.now) key }
    {
        let written = self.deeds().iter().filter_map(|deed| deed.named_word(key));
        written
            .max_by_key(|(name, _word)| *name)
            .map(|(_name, word)| word)
    }

    // The sum of all that was added to a key. Fewer than 2^64 amounts below 2^64 never overflow 128 bits.
    pub fn tally(&self, key: u64) -> u128
        ensures { result ≡ count_at (deeds_of self.now) key }
    {
        self.deeds()
            .iter()
            .map(|deed| u128::from(deed.what.added_to(key)))
            .sum()
    }
}
