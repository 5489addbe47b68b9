// The packer on examples, in plain and in counted lengths.
#![tactic(auto)]

#[cfg(test)]
mod examples;
#[cfg(test)]
mod kinds;
#[cfg(test)]
mod tests;
