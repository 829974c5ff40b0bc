// The signs in a row, struck ones too.
//
// A new sign stands behind its target, but behind the newer signs that follow there: they were put at the same place, or behind such a one, and whatever
// was put behind a sign is newer than it. The first older sign ends them.
ghost use Rattle.std.specs.Prelude.{◌≡◌, ◌<◌, ◌≤◌, [], length, IfOk};
ghost use Rattle.std.specs.List.{slice_get};
ghost use Rattle.std.specs.Option.{SomeIff};
ghost use Rattle.papers.specs.Signs.{row_of, names, signs, before, start, past_newer, put_behind, struck_out, row_with, Becomes};

use crate::deeds::{Deed, Name, What};
use std::alloc::{AllocError, Global};

#[derive(Clone, Copy)]
pub struct Sign {
    pub name: Name,
    pub sign: u64,
    pub struck: bool,
}

#[derive(Drop)]
pub struct Sequence {
    pub row: Vec<Sign>,
}

// Where the sign of a name stands.
fn place_of(row: &[Sign], name: Name) -> Option<usize>
    ensures { SomeIff result (before name row.now < length row.now) (before name row.now) }
{
    row.iter().position(|sign| sign.name == name)
}

// The place right behind a sign, if it is there, or the first place.
fn place_behind(row: &[Sign], behind: Option<Name>) -> Option<usize>
    ensures { result ≡ start behind row.now }
{
    match behind {
        Some(target) => place_of(row, target).map(|place| place + 1),
        None => Some(0),
    }
}

// The first place from this one on where no newer sign stands.
fn past_newer(row: &[Sign], from: usize, name: Name) -> usize
    requires { from ≤ length row.now }
    ensures value { result ≡ past_newer name from row.now }
    ensures bound { result ≤ length row.now }
{
    let newer = row[from..]
        .iter()
        .take_while(|sign| sign.name.is_newer_than(name));
    from + newer.count()
}

impl Sequence {
    pub fn new(heap: Global) -> Sequence
        ensures { row_of result ≡ [] }
    {
        Sequence {
            row: Vec::new(heap),
        }
    }

    // What a deed does to the row. A deed about a sign that isn't known does nothing, and the row never shows it.
    pub fn take_in(&mut self, deed: Deed) -> Result<(), AllocError>
        ensures { Becomes self.old self.new (row_with deed) result }
    {
        match deed.what {
            What::Put { behind, sign } => self.put(deed.name, behind, sign),
            What::Strike { target } => {
                self.strike(target);
                Ok(())
            }
            _ => Ok(()),
        }
    }

    fn put(&mut self, name: Name, behind: Option<Name>, sign: u64) -> Result<(), AllocError>
        ensures { Becomes self.old self.new (put_behind behind name sign) result }
    {
        let Some(from) = place_behind(&self.row, behind) else {
            return Ok(());
        };
        let at = past_newer(&self.row, from, name);
        let new = Sign {
            name,
            sign,
            struck: false,
        };
        self.row.insert(at, new)?;
        Ok(())
    }

    fn strike(&mut self, target: Name)
        ensures { row_of self.new ≡ struck_out target (row_of self.old) }
    {
        if let Some(place) = place_of(&self.row, target) {
            self.row[place].struck = true;
        }
    }

    // The name of the sign that is shown at a place.
    pub fn shown_at(&self, place: u64) -> Option<Name>
        ensures { result ≡ slice_get (names (row_of self.now)) place }
    {
        let mut shown = self.row.iter().filter(|sign| !sign.struck);
        shown.nth(place as usize).map(|sign| sign.name)
    }

    pub fn text(&self, heap: Global) -> Result<Vec<u64>, AllocError>
        ensures { IfOk result (λ v. v.items ≡ signs (row_of self.now)) }
    {
        self.row
            .iter()
            .filter(|sign| !sign.struck)
            .map(|sign| sign.sign)
            .collect(heap)
    }
}
