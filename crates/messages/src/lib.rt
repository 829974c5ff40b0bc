// Letters between desks, as bytes.
//
// A letter carries its writer's version vector, and of its log what the other isn't known to know (a delta, in log order, so that every prefix of it
// hangs together). Letters may be lost, late, doubled or out of order: reading one only raises what is known, and a damaged one is refused whole.
#![tactic(auto)]

mod bytes;
mod heard;
mod layout;
pub mod letter;
mod parsed;
mod records;
