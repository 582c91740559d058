// Catalogues: what they answer, why one could not be read, and names copied out.
#![tactic(auto)]

pub mod catalogue;
pub mod fault;
pub mod heads;
pub mod name;
