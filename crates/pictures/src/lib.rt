// A day at some desks as a picture (SVG): a line for each desk, time to the right.
//
// A dot is a deed, an arrow a letter, from where it was made to each place where it came: twice, if it came twice. One that never came ends in a cross. A bar
// between two lines is a meeting. What was shown, or refused, stands as a label under the line.
#![tactic(auto)]

mod drawing;
mod escape;
mod layout;

pub use drawing::draw;

// What happened, in order: each takes one step to the right.
#[derive(Debug, Drop, PartialEq, Eq)]
pub enum Event {
    Deed { desk: u64, label: String },
    Shown { desk: u64, label: String },
    Made { letter: u64, from: u64, to: u64 },
    Came { letter: u64 },
    Met { one: u64, other: u64 },
}
