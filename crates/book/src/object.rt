// One object of a book.
use elf::symbol::{Definition, Reference, VersionNeed};

// An object as a book tells it, each version with its index; the names are borrowed from the book's text.
#[derive(Drop)]
pub struct BookObject<'a> {
    pub symbolic: bool,
    pub versioned: bool,
    pub soname: Option<&'a [u8]>,
    pub needed: Vec<&'a [u8]>,
    pub needs: Vec<VersionNeed<'a>>,
    pub versions: Vec<(&'a [u8], u16)>,
    pub definitions: Vec<Definition<'a>>,
    pub references: Vec<Reference<'a>>,
}
