// The second paper: a plain model of the document, to compare replicas with.
//
// A paper keeps each deed that it heard of once, in the order of hearing. Words and tallies are found by going over the deeds; the signs stand in a row,
// and a sign finds its place there by a short rule (RGA; Roh and others, 2011). Nothing is shared with the replicas that it judges: no lent memory, no
// letters, no version vectors. Words, tallies, names and refusals are proved to be those of the plain paper (`Doc` of `ops`), and the row to follow its
// rule; that the rule gives the plain paper's order of signs is only tested.
#![tactic(auto)]

mod commands;
mod deeds;
mod paper;
mod sequence;
mod words;

pub use commands::Refusal;
pub use deeds::{Command, Deed, Name, What};
pub use paper::Paper;
