// Desks and tags by their numbers, and operation ids in one line.
ghost use Rattle.std.specs.Prelude.{◌≡◌, ◌<◌};
ghost use Rattle.std.specs.Option.{SomeIff, option_map};
ghost use Rattle.ops.specs.Doc.{id_before};
ghost use Rattle.ops.specs.Values.{desk_of, id_of, ReadsTag};

use crate::layout::DESKS;
use crate::types::{Desk, OpId, Tag, UnknownTag};

impl Desk {
    // The desk of a number, if there is one.
    pub fn new(number: u64) -> Option<Desk>
        ensures { SomeIff (option_map desk_of result) (number < 32) number }
    {
        if number < DESKS as u64 {
            Some(Desk {
                number: number as u8,
            })
        } else {
            None
        }
    }
}

impl OpId {
    // Of two ids the newer has the higher number; of the same number, the higher desk.
    pub fn is_newer_than(self, other: OpId) -> bool
        ensures { result ≡ id_before (id_of other) (id_of self) }
    {
        self > other
    }
}

impl TryFrom<u32> for Tag {
    type Error = UnknownTag;

    ghost try_from_gives = { ReadsTag };

    fn try_from(number: u32) -> Result<Tag, UnknownTag> {
        match number {
            0 => Ok(Tag::Insert),
            1 => Ok(Tag::Delete),
            2 => Ok(Tag::Write),
            3 => Ok(Tag::Add),
            _ => Err(UnknownTag),
        }
    }
}
