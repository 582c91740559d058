// A section of an object: a run of lines that one rule reads.
ghost use Rattle.std.specs.Prelude.{◌≡◌, Bool, List, [], map, IfOk, None, Option};
ghost use Rattle.std.specs.Option.{option_map};
ghost use Rattle.format.specs.Lines.{Fields};
ghost use Rattle.elf.specs.Names.{names_of};
ghost use Rattle.book.specs.Sections.{lines_in, Section};

use super::lines::Lines;
use std::alloc::AllocError;

// What reads the rows of a section, line by line.
pub trait Rule<'a> {
    type Row: Drop;

    ghost Meant: { Type 0 };

    ghost meaning: { Self.Row → Meant };

    ghost reads: { Self → Fields → Option Meant };

    ghost fits: { Self → List Meant → Meant → Bool };

    // A line without fields is no row.
    ghost nothing: { (rule : Self) → reads rule [] ≡ None };

    // The row of a line, if it is one.
    fn read(&self, fields: &[&'a [u8]]) -> Option<Self::Row>
        ensures { option_map meaning result ≡ reads self.now (names_of fields.now) };

    // Whether a row fits behind those before.
    fn fits(&self, before: &[Self::Row], row: &Self::Row) -> bool
        ensures { result ≡ fits self.now (map meaning before.now) (meaning row.now) };
}

impl<'a> Lines<'a> {
    // The rows from the next line on, at most so many.
    pub(super) fn rows<R: Rule<'a>>(
        &mut self,
        rule: &R,
        most: usize,
    ) -> Result<Vec<R::Row>, AllocError>
        ensures same { self.new.parts.items ≡ self.old.parts.items }
        ensures rows { IfOk result (λ v. Section most (R.Rule.reads rule.now) (R.Rule.fits rule.now) (lines_in self.old.parts.items) self.old.next (map R.Rule.meaning v.items) self.new.next) }
    {
        let mut rows = Vec::new(self.alloc);
        for _ in 0..most {
            match rule.read(&self.fields()?) {
                Some(row) if rule.fits(&rows, &row) => rows.push(row)?,
                _ => return Ok(rows),
            }
            self.next += 1;
        }
        Ok(rows)
    }
}
