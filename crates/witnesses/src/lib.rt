// A witness of a desk: what it should show, by a second paper and by a plain desk.
//
// A paper keeps the deeds that the desk has heard of, as the desk's version vector says, and answers with the plain paper's words, tallies, names and
// refusals. A plain desk is told the same commands, and is sent plain letters: all that the writer knew.
#![tactic(auto)]

mod commands;
mod compare;
mod faults;
mod rows;
mod sights;
mod witness;

pub use commands::told;
pub use compare::{KEYS, compare_key, key_on_paper, key_shown};
pub use faults::{Mismatch, Stop, expect};
pub use rows::Row;
pub use sights::{Difference, Sight};
pub use witness::{TEXT_IS_KNOWN, Witness};
