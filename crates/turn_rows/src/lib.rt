//! No product code: turns that workers give to groups of plain lists in memory, which pass tokens on.
#![tactic(auto)]

#[cfg(test)]
mod tests;
