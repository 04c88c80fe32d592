// Sources and what the formula translator answers of them: every fault, the ends of the limits, and the code of small functions.
#![tactic(auto)]

#[cfg(test)]
mod tests;
