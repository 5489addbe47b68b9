// Listings of small tasks.
#![tactic(auto)]

#[cfg(test)]
mod tests;
