// Examples of names, projects and link orders, run as tests.
#![tactic(auto)]

#[cfg(test)]
mod tests;
