// The vocabulary: a deed's name, what it does, and what somebody asks for.
ghost use Rattle.std.specs.Prelude.{◌≡◌};
ghost use Rattle.ops.specs.Doc.{id_before};
ghost use Rattle.papers.specs.Deeds.{id_of};

// A deed's own name: a number above all that its desk knew of, and the desk.
#[derive(Clone, Copy, PartialEq, Eq, PartialOrd, Ord, Debug)]
pub struct Name {
    pub number: u64,
    pub desk: u64,
}

#[derive(Clone, Copy, PartialEq, Eq, Debug)]
pub enum What {
    // A sign behind another one, or at the beginning.
    Put { behind: Option<Name>, sign: u64 },
    Strike { target: Name },
    Write { key: u64, word: u64 },
    Add { key: u64, amount: u64 },
}

#[derive(Clone, Copy, PartialEq, Eq, Debug)]
pub struct Deed {
    pub name: Name,
    pub what: What,
}

// What somebody asks for at a desk, by the places that they see.
#[derive(Clone, Copy, PartialEq, Eq, Debug)]
pub enum Command {
    Insert { place: u64, sign: u64 },
    Strike { place: u64 },
    Write { key: u64, word: u64 },
    Add { key: u64, amount: u64 },
}

impl Name {
    // Of two names the newer has the higher number; of the same number, the higher desk.
    pub fn is_newer_than(self, other: Name) -> bool
        ensures { result ≡ id_before (id_of other) (id_of self) }
    {
        self > other
    }
}
