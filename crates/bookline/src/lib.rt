// One line of an export book: its fields, its numbers, the row that it tells, and how that fits behind those before.
#![tactic(auto)]

pub mod fits;
pub mod rows;
pub mod text;
