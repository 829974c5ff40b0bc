// A session played on a room, line by line: what comes of each line, and why one cannot be played. What happens is kept for a picture.
#![tactic(auto)]

mod stage;
mod trouble;

pub use stage::{Said, Stage};
pub use trouble::Trouble;
