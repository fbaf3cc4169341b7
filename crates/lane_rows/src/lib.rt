//! Formulas made from numbers, compiled and run, beside their values by `eval`. All of it is tests.
#![tactic(auto)]

#[cfg(test)]
mod tests;
