//! The rows of the language, as tables: what no clause says in general, and each public call once with ample memory.
//! All of it is tests.
#![tactic(auto)]

#[cfg(test)]
mod tests;
