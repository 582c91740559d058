// Reading a book's text.
ghost use Rattle.format.specs.Book.{read_book};
ghost use Rattle.book.specs.Held.{objects_of};
ghost use Rattle.catalogue.specs.Reading.{Reads};

use super::lines::Lines;
use super::whole::Book;
use bookline::text::after_first_line;
use catalogue::fault::Fault;
use elf::refusal::Refusal;
use std::alloc::Global;

// The most bytes of a book.
const LONGEST: usize = 1_048_576;

impl<'a> Book<'a> {
    // The objects that a text tells, or the first line that is bad or missing.
    pub fn read(alloc: Global, text: &'a [u8]) -> Result<Book<'a>, Fault>
        ensures { Reads (λ b. objects_of b.objects.items) result (read_book text.now) }
    {
        if text.len() > LONGEST {
            return Err(Refusal::BookTooLong.into());
        }
        let rest = after_first_line(text).ok_or(Refusal::BadLine { line: 0 })?;
        let mut lines = Lines::new(alloc, rest)?;
        let objects = lines.objects()?;
        if objects.is_empty() || !lines.is_end() {
            return Err(Refusal::BadLine {
                line: lines.next + 1,
            }
            .into());
        }
        Ok(Book { objects })
    }
}
