//! No product code: rows for what the built program does not show. Each row is a line of text: what is done, and what it results in.
#![tactic(auto)]

#[cfg(test)]
mod tests;
