// Every refusal of every call, as one enum.

// What an object or a session may have too many of.
#[derive(Clone, Copy, PartialEq, Eq, Debug)]
pub enum Limit {
    Definitions,
    References,
    Needed,
    Preloads,
}

// A refusal, with the values that it tells.
#[derive(Clone, Copy, PartialEq, Eq, Debug)]
pub enum Refusal {
    // A part of the image set is too long, or lies outside it.
    PartOutside { part: usize },
    // An image's identification, type or program header table is bad.
    BadHeader { part: usize },
    // A segment lies outside the image, or there is not just one dynamic segment with an end.
    BadSegments { part: usize },
    // A dynamic table lies outside its segment.
    TableOutside { part: usize, tag: u32 },
    // A name has no end, or is not lawful.
    BadName { part: usize },
    // A dynamic tag stands twice, or is missing.
    BadTags { part: usize },
    // The image set is too long.
    SetTooLong,
    // An image has version tables.
    HasVersions { part: usize },
    // A limit is passed.
    TooMany { object: usize, what: Limit },
    // The book is too long.
    BookTooLong,
    // The first bad or missing line of a book.
    BadLine { line: usize },
    // The image set has no part, or too many.
    PartCount,
    // The object is past the end of the catalogue.
    Unknown { object: usize },
    // The object is there already.
    Twice { object: usize },
    // The object is not there, or not open.
    NotThere { object: usize },
    // A needed entry leads to no object.
    NoTarget { object: usize, entry: usize },
    // A version need that is not weak is not met.
    NoVersion { object: usize, need: usize },
    // A strong reference takes no definition.
    Unbound { object: usize, symbol: usize },
    // The references of the loaded objects are too many.
    ManyBindings { object: usize },
    // No more opens are granted in this session.
    OpensUsedUp { object: usize },
    // The buffer is shorter than what is to be written.
    ShortBuffer { needed: usize },
}
