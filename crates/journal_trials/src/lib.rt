// Books that are cut off or damaged, read again: only true entries are read, in their order, and how reading ends is told. Everything here is a test.
#![tactic(auto)]

#[cfg(test)]
mod books;
#[cfg(test)]
mod flips;
#[cfg(test)]
mod headers;
#[cfg(test)]
mod layout;
