// What papers and plain desks come to show: desks type at the same time, hear of one another in any order, and are refused. Everything here is a test.
//
// A trial is a list of steps. Each step is taken on papers and on plain desks alike, and both have to answer as it says.
#![tactic(auto)]

#[cfg(test)]
mod desk;
#[cfg(test)]
mod steps;
#[cfg(test)]
mod trials;
