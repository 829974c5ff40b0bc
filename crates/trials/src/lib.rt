// Whole runs of desks: what a desk answers, refuses and keeps when it is told many things, and what several desks come to show when their letters are lost,
// doubled, late or damaged. Everything here is a test.
//
// What the tests share answers whether all went as it should, or how far it went; the tests check that.
#![tactic(auto)]

#[cfg(test)]
mod desk;
#[cfg(test)]
mod entries;
#[cfg(test)]
mod full;
#[cfg(test)]
mod junk;
#[cfg(test)]
mod model;
#[cfg(test)]
mod network;
#[cfg(test)]
mod refusals;
#[cfg(test)]
mod seal;
