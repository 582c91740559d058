// Link sessions over any scope: set-up, linking and reports.
#![tactic(auto)]

mod bind;
mod checks;
mod join;
pub mod line;
pub mod linked;
mod load;
pub mod name;
mod reference;
mod rows;
mod seen;
pub mod setup;
mod start;
pub mod table;
#[cfg(test)]
mod tests;
pub mod text;
mod walk;
