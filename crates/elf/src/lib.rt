// Shared objects below any catalogue: refusals, symbols, and which definition an object offers.
#![tactic(auto)]

pub mod name;
pub mod offer;
pub mod refusal;
pub mod row;
pub mod symbol;
#[cfg(test)]
mod tests;
