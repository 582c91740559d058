// A refusal's number, object and place.
ghost use Rattle.std.specs.Prelude.{◌≡◌};
ghost use Rattle.elf.specs.Refusals.{row, limit_place};

use super::refusal::{Limit, Refusal};

impl Limit {
    pub fn place(&self) -> usize
        ensures { result ≡ limit_place self.now }
    {
        match self {
            Limit::Definitions => 1,
            Limit::References => 2,
            Limit::Needed => 3,
            Limit::Preloads => 4,
        }
    }
}

impl Refusal {
    pub fn row(&self) -> (usize, usize, usize)
        ensures { result ≡ row self.now }
    {
        match *self {
            Refusal::PartOutside { part } => (1, part, 0),
            Refusal::BadHeader { part } => (2, part, 0),
            Refusal::BadSegments { part } => (3, part, 0),
            Refusal::TableOutside { part, tag } => (4, part, tag as usize),
            Refusal::BadName { part } => (5, part, 0),
            Refusal::BadTags { part } => (6, part, 0),
            Refusal::SetTooLong => (7, 0, 0),
            Refusal::HasVersions { part } => (8, part, 0),
            Refusal::TooMany { object, what } => (9, object, what.place()),
            Refusal::BookTooLong => (10, 65535, 0),
            Refusal::BadLine { line } => (10, 65535, line.min(65535)),
            Refusal::PartCount => (11, 0, 0),
            Refusal::Unknown { object } => (12, object, 0),
            Refusal::Twice { object } => (13, object, 0),
            Refusal::NotThere { object } => (14, object, 0),
            Refusal::NoTarget { object, entry } => (15, object, entry),
            Refusal::NoVersion { object, need } => (16, object, need),
            Refusal::Unbound { object, symbol } => (17, object, symbol),
            Refusal::ManyBindings { object } => (18, object, 4096),
            Refusal::OpensUsedUp { object } => (19, object, 65535),
            Refusal::ShortBuffer { needed } => (20, 0, needed),
        }
    }
}
