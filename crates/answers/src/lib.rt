// What a desk shows, as text: a key's word and tally, and the signs of a text.
#![tactic(auto)]

ghost use Rattle.std.specs.Prelude.{◌≡◌, IfOk, string_bytes};
ghost use Rattle.answers.specs.Texts.{key_text, character, text_of};

use std::alloc::{AllocError, Global};

// What is shown of a key: the word under it, if there is one, and its tally.
pub fn key_answer(heap: Global, word: Option<u64>, tally: u64) -> Result<String, AllocError>
    ensures { IfOk result (λ t. string_bytes t ≡ key_text word tally) }
{
    match word {
        Some(word) => format!(in heap; "{word}; {tally}"),
        None => format!(in heap; "; {tally}"),
    }
}

// The character of a sign; a sign that is no character has U+FFFD.
fn shown(sign: u64) -> char
    ensures { result ≡ character sign }
{
    u32::try_from(sign)
        .ok()
        .and_then(char::from_u32)
        .unwrap_or(char::REPLACEMENT_CHARACTER)
}

// What is shown of a text: its signs as characters.
pub fn text_answer(heap: Global, signs: &[u64]) -> Result<String, AllocError>
    ensures { IfOk result (λ t. string_bytes t ≡ text_of signs.now) }
{
    signs.iter().map(|sign| shown(*sign)).collect(heap)
}
