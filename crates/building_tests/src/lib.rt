// Examples of builds and of linking what was built, run as tests.
#![tactic(auto)]

#[cfg(test)]
mod tests;
