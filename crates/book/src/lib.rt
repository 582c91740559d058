// The export book: a text read into a catalogue.
#![tactic(auto)]

pub mod asks;
mod lines;
mod lookup;
pub mod object;
mod objects;
pub mod read;
mod rule;
mod sections;
pub mod whole;
