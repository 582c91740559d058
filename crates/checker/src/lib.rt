// What the programs print: each is one function from the bytes read to the bytes written.
#![tactic(auto)]

pub mod linkbook;
pub mod samples;
