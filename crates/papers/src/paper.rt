// What is known, each deed once.
ghost use Rattle.std.specs.Prelude.{◌≡◌, [], map, length, IfOk};
ghost use Rattle.ops.specs.Doc.{has_id};
ghost use Rattle.papers.specs.Deeds.{id_of, op_of};
ghost use Rattle.papers.specs.Papers.{deeds_of, text_of, Hears};

use crate::deeds::{Deed, Name};
use crate::sequence::Sequence;
use std::alloc::{AllocError, Global};

#[derive(Drop)]
pub struct Paper {
    pub(crate) heard: Vec<Deed>,
    pub(crate) signs: Sequence,
}

impl Paper {
    #[tactic(auto, unfolding(ops::specs::Doc::those))]
    pub fn new(heap: Global) -> Paper
        ensures deeds { deeds_of result ≡ [] }
        ensures text { text_of result ≡ [] }
    {
        Paper {
            heard: Vec::new(heap),
            signs: Sequence::new(heap),
        }
    }

    // How many deeds are known.
    pub fn len(&self) -> usize
        ensures { result ≡ length (deeds_of self.now) }
    {
        self.heard.len()
    }

    // The deeds in the order of hearing.
    pub fn deeds(&self) -> &[Deed]
        ensures { map op_of result.now ≡ deeds_of self.now }
    {
        self.heard.as_slice()
    }

    pub fn knows(&self, name: Name) -> bool
        ensures { result ≡ has_id (deeds_of self.now) (id_of name) }
    {
        self.deeds().iter().any(|deed| deed.name == name)
    }

    // Takes in a deed, if none of that name is known; answers whether it was new.
    pub fn hear(&mut self, deed: Deed) -> Result<bool, AllocError>
        ensures { Hears self.old self.new deed result }
    {
        if self.knows(deed.name) {
            return Ok(false);
        }
        // Room first: a deed is in both rows, or in none.
        self.heard.reserve(1)?;
        self.signs.take_in(deed)?;
        self.heard.push_reserved(deed);
        Ok(true)
    }

    // The signs that are shown.
    pub fn text(&self, heap: Global) -> Result<Vec<u64>, AllocError>
        ensures { IfOk result (λ v. v.items ≡ text_of self.now) }
    {
        self.signs.text(heap)
    }
}
