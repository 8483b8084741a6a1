//! Tests of the loop by its library calls, in a crate of their own so that `feedback` is proved once. What the programs
//! can reach is tested at the programs; here it is what they cannot: slices of any length, any `i32`, any alarms.
#![tactic(auto)]

#[cfg(test)]
mod alarms;
#[cfg(test)]
mod answers;
#[cfg(test)]
mod beats;
#[cfg(test)]
mod damage;
#[cfg(test)]
mod expect;
#[cfg(test)]
mod head;
#[cfg(test)]
mod lines;
#[cfg(test)]
mod middles;
#[cfg(test)]
mod runs;
#[cfg(test)]
mod sensors;
