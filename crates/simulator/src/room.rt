// The vocabulary: a room, what can happen in it, and what is answered.
ghost use Rattle.std.specs.Prelude.{◌≡◌, vec_len};
ghost use Rattle.simulator.specs.Rooms.{Reached};

use crate::letter::Letter;
use replicas::{Deed, Key, Replica};

#[derive(Drop)]
pub struct Room {
    pub(crate) desks: Vec<Replica>,
    // Every letter that was ever made, in order.
    pub(crate) letters: Vec<Letter>,
    ghost count: { vec_len desks ≡ 32 },
    ghost reached: { Reached desks letters },
}

// What somebody asks of a desk.
#[derive(Clone, Copy, PartialEq, Eq, Debug)]
pub enum Command {
    Do(Deed),
    ShowText,
    ShowKey(u64),
}

#[derive(Clone, Copy, PartialEq, Eq, Debug)]
pub enum Item {
    At { desk: u64, command: Command },
    // One desk makes a letter for another.
    Makes { from: u64, to: u64 },
    // A letter, by its number from 0 on, comes to the desk that it is for.
    Comes { letter: u64 },
    // Two desks send letters to and fro until both know the same.
    Meets { one: u64, other: u64 },
}

#[derive(Clone, Copy, PartialEq, Eq, Debug)]
pub enum Answer {
    Done,
    Key(Key),
    // So many pairs of letters, of so many bytes in all.
    Met { pairs: u64, bytes: u64 },
}
