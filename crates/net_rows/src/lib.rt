//! The networks of small and of large programs, a row each, the limits that programs pass, and how often modules fire.
//! All of it is tests.
#![tactic(auto)]

#[cfg(test)]
mod tests;
