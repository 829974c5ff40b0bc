// The book of a desk: a journal of what the desk's machine was told, as bytes.
//
// A machine does the same whenever it is told the same, so a desk that reads its book from the start is again where it was. Entries are only ever put
// behind the others, and writing one may be cut off in the midst of it. So a book that ends within an entry is torn, and what stands before that entry
// is still good; bytes that are no entry are damage. Bits that were flipped are found as surely as a CRC-32 finds them, and a book that lost whole entries
// from its end can't be told from a shorter one. All numbers have their lowest byte first.
//
//     header, 12 bytes     "BOOK", version 1, desk, 0, 0, CRC-32 of these 8 bytes (4)
//     entry, n + 8 bytes   n (2), 65535 - n (2), body of n bytes, CRC-32 of all that (4)
//     body, 17 to 4113     kind (1), a (8), b (8), letter (the rest, at most 4096)
//
// `specs/Book.antt` says of all bytes what is read.
#![tactic(auto)]

ghost use Rattle.std.specs.Prelude.{◌≡◌, true};
ghost use Rattle.journals.specs.Statements.{Statement};

mod entries;
mod headers;
mod numbers;

pub use entries::{Entry, Fault, Flaw, Next, next_entry, write_entry};
pub use headers::{HeaderFault, header, read_header};

// Theorems by name; specs/Statements.antt has the statement of each.
#[derive(Clone, Copy)]
pub enum Theorem {
    // A header that was written is read again, whatever stands behind it.
    HeaderReturns,
    // An entry that was written is read again, with its size, whatever stands behind it.
    EntryReturns,
    // Reading a book is reading its next entry, and then the book behind it.
    EntryByEntry,
    // Of entries written one behind the other just these are read.
    BookReturns,
    // Of a book cut off anywhere its first entries are read, as many as are whole, and no damage is seen.
    Cut,
}

// Whether a theorem holds. They all do; the contract is what counts.
pub fn holds(theorem: Theorem) -> bool
    ensures { (result ≡ true) × Statement theorem }
{
    match theorem {
        Theorem::HeaderReturns => true,
        Theorem::EntryReturns => true,
        Theorem::EntryByEntry => true,
        Theorem::BookReturns => true,
        Theorem::Cut => true,
    }
}
