// Examples of stores: the same scripts over every kind, and where the records of a log lie, run as tests.
#![tactic(auto)]

#[cfg(test)]
mod tests;
