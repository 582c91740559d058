// A whole book, read.
ghost use Rattle.catalogue.specs.Lawful.{Lawful};
ghost use Rattle.catalogue.specs.LawfulProp.{lawful_prop};
ghost use Rattle.book.specs.Held.{objects_of};

use super::object::BookObject;

// The objects of a book, which keep the rules of a catalogue.
#[derive(Drop)]
pub struct Book<'a> {
    pub(super) objects: Vec<BookObject<'a>>,
    ghost lawful: { Lawful (objects_of objects.items) } by { lawful_prop (objects_of objects.items) },
}
