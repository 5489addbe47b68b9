// Tests of the crate `reading` on sheets whose load is refused.
#![tactic(auto)]

#[cfg(test)]
mod refusals;
