// A room of 32 desks and a boat between them, for trying.
//
// A room is a function of the items that happened in it: a command at a desk, a letter made, a letter come, a meeting. `play` does exactly one item
// (`moves`, over the machine that all else is proved of), so whatever a program does with a room, every room that it holds is one that the main
// theorem speaks of: what a desk shows is the plain paper's for what it has heard of.
#![tactic(auto)]

mod letter;
mod looks;
mod meetings;
mod play;
mod room;
mod two;

pub use letter::Letter;
pub use room::{Answer, Command, Item, Room};
