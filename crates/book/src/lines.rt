// The lines of a book, one behind the other.
ghost use Rattle.std.specs.Prelude.{◌≡◌, ◌≤◌, [], length, drop, IfOk, nat_le, slice_index_or};
ghost use Rattle.elf.specs.Names.{names_of};
ghost use Rattle.format.specs.Lines.{split as split_of};
ghost use Rattle.book.specs.Sections.{lines_in};

use bookline::text::split;
use std::alloc::{AllocError, Global};

// The lines of a text, told by the parts between its line feeds, and the place of the next to be read.
#[derive(Drop)]
pub(super) struct Lines<'a> {
    pub(super) alloc: Global,
    pub(super) parts: Vec<&'a [u8]>,
    pub(super) next: usize,
    ghost within: { next ≤ length (lines_in parts.items) },
}

impl<'a> Lines<'a> {
    pub(super) fn new(alloc: Global, text: &'a [u8]) -> Result<Lines<'a>, AllocError>
        ensures parts { IfOk result (λ l. names_of l.parts.items ≡ split_of 10 text.now) }
        ensures next { IfOk result (λ l. l.next ≡ 0) }
    {
        let parts = split(alloc, text, b'\n')?;
        Ok(Lines {
            alloc,
            parts,
            next: 0,
        })
    }

    // The parts from the next line on.
    #[tactic(auto, using(crate::proofs::LinesTold::lines_fit))]
    fn rest(&self) -> &[&'a [u8]]
        ensures { result.now ≡ drop self.now.next self.now.parts.items }
    {
        &self.parts[self.next..]
    }

    // The fields of the next line, none past the last line or in one without an end.
    pub(super) fn fields(&self) -> Result<Vec<&'a [u8]>, AllocError>
        ensures { IfOk result (λ v. names_of v.items ≡ slice_index_or (lines_in self.now.parts.items) self.now.next []) }
    {
        match self.rest() {
            [line, _, ..] => split(self.alloc, *line, b' '),
            _ => Ok(Vec::new(self.alloc)),
        }
    }

    // Whether no line is left; what stands behind the last line feed is a line unless it is empty.
    pub(super) fn is_end(&self) -> bool
        ensures { result ≡ nat_le (length (lines_in self.now.parts.items)) self.now.next }
    {
        match self.rest() {
            [] => true,
            [last] => last.is_empty(),
            _ => false,
        }
    }
}
