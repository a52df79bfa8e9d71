//! No product code: runs by workers in which processes wait for each other, which no command of the program does.
#![tactic(auto)]

#[cfg(test)]
mod tests;
