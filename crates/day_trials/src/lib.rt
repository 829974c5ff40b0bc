// Days that are played and looked at: everything here is a test.
#![tactic(auto)]

#[cfg(test)]
mod options;
#[cfg(test)]
mod trials;
