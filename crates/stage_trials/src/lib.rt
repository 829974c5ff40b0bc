// Sessions that go wrong: what cannot be played is said, line by line, and changes nothing. Everything here is a test.
#![tactic(auto)]

#[cfg(test)]
mod lines;
