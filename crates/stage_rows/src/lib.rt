//! The staged programs of small programs, a row each, with their regions and nets. All of it is tests.
#![tactic(auto)]

#[cfg(test)]
mod tests;
