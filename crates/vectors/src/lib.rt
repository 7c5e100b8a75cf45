// Tests of the library's leaves on worked examples. They stand in a crate of their own, so that no crate with a
// contract is proved a second time for the sake of its tests. Expected values come from the rules, worked by hand or
// by separate scripts as each table says, and never from what the code answers.
#![tactic(auto)]

#[cfg(test)]
mod answers;
#[cfg(test)]
mod keyed;
#[cfg(test)]
mod laid;
#[cfg(test)]
mod longest;
#[cfg(test)]
mod reading;
#[cfg(test)]
mod scalars;
#[cfg(test)]
mod streams;
#[cfg(test)]
mod texts;
#[cfg(test)]
mod writing;
