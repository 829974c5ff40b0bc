// What is found under a key.
use ops::OpId;

// A word that was found under a key, with the id of the operation that wrote it.
#[derive(Clone, Copy, PartialEq, Eq, Debug)]
pub struct Found {
    pub id: OpId,
    pub word: u32,
}
