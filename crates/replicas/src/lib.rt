// A replica: a desk's machine with a memory of its own.
//
// The machine does one act at a time, and a method is one act, or two where the machine goes on. What comes of it is the run that the main theorem speaks
// of (`runs_on`, for the machine `own`), and each method says so.
#![tactic(auto)]

mod acts;
mod fault;
mod machine;
mod methods;

pub use fault::Fault;
pub use machine::{Deed, Key, Replica};
