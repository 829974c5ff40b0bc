// The theorems: what holds of the plain paper, and of all desks together.
//
// A theorem is asked for only where a contract names it, so these functions have nothing else to say: each answers `true`, and its contract is the
// theorem. The main one speaks of any run: any deeds at any desks, any letters made and come, any meetings. It is proved once for any machine, from a
// few laws of one desk and one letter (proofs/Laws.antt), as Gomes and others (2017) prove strong eventual consistency apart from the data type.
#![tactic(auto)]

ghost use Rattle.std.specs.Prelude.{◌≡◌, true};
ghost use Rattle.ops.specs.Doc.{core};
ghost use Rattle.desks.specs.Entry.{own};
ghost use Rattle.desks.specs.Promise.{Whole};
ghost use Rattle.network.specs.Statements.{Statement};

pub mod rooms;

// Take any deeds at any desks, any letters made and come, any meetings: what each desk shows is what the plain paper is for what it has heard of;
// nothing is heard of that wasn't done; nothing is forgotten; and two that have met know all that either knew.
pub fn every_run_is_right() -> bool
    ensures { (result ≡ true) × Whole core own }
{
    true
}

// Theorems by name, of the plain paper, of one machine, and of letters; specs/Statements.antt has the statement of each.
#[derive(Clone, Copy)]
pub enum Theorem {
    // Whoever has heard of the same operations sees the same, in whatever order they came.
    AnyOrder,
    // A log that hangs together goes on to, after any command, and so do two that agree, put together.
    HangsOn,
    // The tallies of two logs, one behind the other, are added.
    CountsAdded,
    // An operation's id is newer than all that its desk knew, and bears the desk's own number.
    NewNames,
    // What is written or added stands under its key and nowhere else; showing shows it and changes nothing.
    Said,
    // Which commands are refused, with which number; a refusal shows nothing and changes nothing.
    Refused,
    // When the machine refuses what it is told, with which number, and that nothing is changed then.
    Declined,
    // What was encoded as a letter is decoded, whole.
    RoundTrip,
    // A letter is taken only by the desk that it is for, as from the desk that wrote it.
    OnlyFor,
    // Three desks' page, step by step, reads as the table says.
    PageReads,
}

// Whether a theorem holds. They all do.
pub fn holds(theorem: Theorem) -> bool
    ensures { (result ≡ true) × Statement theorem }
{
    match theorem {
        Theorem::AnyOrder => true,
        Theorem::HangsOn => true,
        Theorem::CountsAdded => true,
        Theorem::NewNames => true,
        Theorem::Said => true,
        Theorem::Refused => true,
        Theorem::Declined => true,
        Theorem::RoundTrip => true,
        Theorem::OnlyFor => true,
        Theorem::PageReads => true,
    }
}
