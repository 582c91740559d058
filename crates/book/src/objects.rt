// The objects of a book, each with its sections.
ghost use Rattle.std.specs.Prelude.{◌≡◌, IfOk};
ghost use Rattle.std.specs.Option.{option_map};
ghost use Rattle.book.specs.Held.{object_of, objects_of};
ghost use Rattle.book.specs.Sections.{lines_in, ObjectRead, ObjectsIn};

use super::lines::Lines;
use super::object::BookObject;
use super::sections::{Definitions, Names, References, Versions, Wants};
use bookline::rows::object_row;
use std::alloc::AllocError;

// The most objects of a book.
const MOST: usize = 64;

impl<'a> Lines<'a> {
    // The next object, none where the next line is no `object` line.
    fn object(&mut self) -> Result<Option<BookObject<'a>>, AllocError>
        ensures same { self.new.parts.items ≡ self.old.parts.items }
        ensures object { IfOk result (λ o. ObjectRead (lines_in self.old.parts.items) self.old.next (option_map object_of o) self.new.next) }
    {
        let Some(flags) = object_row(&self.fields()?) else {
            return Ok(None);
        };
        self.next += 1;
        let sonames = self.rows(&Names { word: b"soname" }, 1)?;
        let needed = self.rows(&Names { word: b"needed" }, 32)?;
        let needs = self.rows(&Wants, 64)?;
        let versions = self.rows(&Versions, 64)?;
        let versioned = flags.versioned;
        let definitions = self.rows(&Definitions { versioned }, 4096)?;
        let rule = References {
            definitions: &definitions,
        };
        let references = self.rows(&rule, 4096)?;
        Ok(Some(BookObject {
            symbolic: flags.symbolic,
            versioned,
            soname: sonames.first().copied(),
            needed,
            needs,
            versions,
            definitions,
            references,
        }))
    }

    // The objects from the first line on, at most 64.
    pub(super) fn objects(&mut self) -> Result<Vec<BookObject<'a>>, AllocError>
        requires { self.old.next ≡ 0 }
        ensures same { self.new.parts.items ≡ self.old.parts.items }
        ensures objects { IfOk result (λ v. ObjectsIn (lines_in self.old.parts.items) (objects_of v.items) self.new.next) }
    {
        let mut objects = Vec::new(self.alloc);
        for _ in 0..MOST {
            let Some(object) = self.object()? else {
                return Ok(objects);
            };
            objects.push(object)?;
        }
        Ok(objects)
    }
}
