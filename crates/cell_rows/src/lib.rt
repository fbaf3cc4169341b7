//! The rows of cells in files, as tables: what a reader gives and a writer writes over files in memory, in blocks of
//! each size and with each call failing in turn. All of it is tests.
#![tactic(auto)]

#[cfg(test)]
mod tests;
