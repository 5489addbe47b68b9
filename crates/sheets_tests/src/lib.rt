// Tests of the crate `sheets` on the edges of its rules.
#![tactic(auto)]

#[cfg(test)]
mod edges;
#[cfg(test)]
mod faults;
#[cfg(test)]
mod lines;
