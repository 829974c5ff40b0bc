// Operations, and a log of them in lent memory.
//
// An operation has an id: a number above all that its desk knew of, and the desk. Ids are in one line on all desks, so "newest" means the same
// everywhere (Lamport, 1978). The log is append-only. Beside it stands its version vector, which says precisely what is known: of each desk the
// operations up to a number. The plain paper itself, what a list of operations means, is specs/Doc.antt.
#![tactic(auto)]

pub mod layout;
mod log;
mod names;
mod operations;
mod types;

pub use operations::Operations;
pub use types::{Desk, Full, Kind, Memory, Op, OpId, Tag, UnknownTag};
