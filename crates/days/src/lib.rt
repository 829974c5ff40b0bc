// Random days at a few desks, beside the second paper and plain desks.
//
// A day is a run of a room: commands at random desks, letters that come late, twice, out of order or never, meetings, and at the end all meet. Beside
// each desk stands a witness: a second paper that has heard of the same deeds, and a plain desk that is told the same. After every event what the desk
// shows is compared with what its witness says. Which deeds a desk has heard of is read from its version vector; names, words, tallies and refusals are
// the paper's. A day is a function of its seed and its number, and is kept as lines that another program can play again.
#![tactic(auto)]

mod bench;
mod commands;
mod day;
mod events;
mod lines;
mod post;

pub use bench::{Bench, BenchDay};
pub use day::Day;
pub use lines::Line;
pub use plans::{Asked, Options, Setting, Summary, asked_for};
pub use witnesses::Difference;
