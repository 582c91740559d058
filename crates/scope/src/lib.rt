// Scopes: the trait, and the plain load order.
#![tactic(auto)]

pub mod known;
pub mod order;
pub mod scope;
