// What random days are asked for, the numbers that they draw, and what they came to: pure values, of which contracts say all.
#![tactic(auto)]

mod asked;
mod draw;
mod options;
mod summary;

pub use asked::{Asked, asked_for};
pub use draw::Draw;
pub use options::{Options, Setting};
pub use summary::{Summary, count};
