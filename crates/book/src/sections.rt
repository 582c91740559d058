// The sections of an object, each by its rule.
ghost use Rattle.std.specs.Prelude.{ℕ, map, refl};
ghost use Rattle.elf.specs.Names.{Name};
ghost use Rattle.elf.specs.Meaning.{Definition as Defined, Reference as Referred, VersionNeed as Needed};
ghost use Rattle.elf.specs.Stored.{definition_of, reference_of, need_of};
ghost use Rattle.format.specs.Book.{any};
ghost use Rattle.format.specs.Lines.{name_row, want_row, version_row, new_index, def_row, def_fits, ref_row, ref_fits};
ghost use Rattle.bookline.specs.Rows.{version_of};

use super::rule::Rule;
use bookline::fits::{def_fits, ref_fits, version_fits};
use bookline::rows::{def_row, name_row, ref_row, version_row, want_row};
use elf::symbol::{Definition, Reference, VersionNeed};

// Lines of a word and a name.
#[derive(Drop)]
pub struct Names<'w> {
    pub word: &'w [u8],
}

impl<'a, 'w> Rule<'a> for Names<'w> {
    type Row = &'a [u8];

    ghost Meant = { Name };

    ghost meaning = { (λ x. x.now) };

    ghost reads = { λ s. name_row s.word.now };

    ghost fits = { λ _. any };

    ghost nothing = { λ _. refl };

    fn read(&self, fields: &[&'a [u8]]) -> Option<&'a [u8]> {
        name_row(self.word, fields)
    }

    fn fits(&self, _before: &[&'a [u8]], _row: &&'a [u8]) -> bool {
        true
    }
}

// Lines of the versions that an object needs.
#[derive(Drop)]
pub struct Wants;

impl<'a> Rule<'a> for Wants {
    type Row = VersionNeed<'a>;

    ghost Meant = { Needed };

    ghost meaning = { need_of };

    ghost reads = { λ _. want_row };

    ghost fits = { λ _. any };

    ghost nothing = { λ _. refl };

    fn read(&self, fields: &[&'a [u8]]) -> Option<VersionNeed<'a>> {
        want_row(fields)
    }

    fn fits(&self, _before: &[VersionNeed<'a>], _row: &VersionNeed<'a>) -> bool {
        true
    }
}

// Lines of the versions that an object defines, whose indices all differ.
#[derive(Drop)]
pub struct Versions;

impl<'a> Rule<'a> for Versions {
    type Row = (&'a [u8], u16);

    ghost Meant = { Name × ℕ };

    ghost meaning = { version_of };

    ghost reads = { λ _. version_row };

    ghost fits = { λ _. new_index };

    ghost nothing = { λ _. refl };

    fn read(&self, fields: &[&'a [u8]]) -> Option<(&'a [u8], u16)> {
        version_row(fields)
    }

    fn fits(&self, before: &[(&'a [u8], u16)], row: &(&'a [u8], u16)) -> bool {
        version_fits(before, row)
    }
}

// Lines of definitions.
#[derive(Drop)]
pub struct Definitions {
    pub versioned: bool,
}

impl<'a> Rule<'a> for Definitions {
    type Row = Definition<'a>;

    ghost Meant = { Defined };

    ghost meaning = { definition_of };

    ghost reads = { λ _. def_row };

    ghost fits = { λ s. def_fits s.versioned };

    ghost nothing = { λ _. refl };

    fn read(&self, fields: &[&'a [u8]]) -> Option<Definition<'a>> {
        def_row(fields)
    }

    fn fits(&self, before: &[Definition<'a>], row: &Definition<'a>) -> bool {
        def_fits(self.versioned, before, row)
    }
}

// Lines of references, behind the definitions of the same object.
#[derive(Drop)]
pub struct References<'a, 'd> {
    pub definitions: &'d [Definition<'a>],
}

impl<'a, 'd> Rule<'a> for References<'a, 'd> {
    type Row = Reference<'a>;

    ghost Meant = { Referred };

    ghost meaning = { reference_of };

    ghost reads = { λ _. ref_row };

    ghost fits = { λ s. ref_fits (map definition_of s.definitions.now) };

    ghost nothing = { λ _. refl };

    fn read(&self, fields: &[&'a [u8]]) -> Option<Reference<'a>> {
        ref_row(fields)
    }

    fn fits(&self, before: &[Reference<'a>], row: &Reference<'a>) -> bool {
        ref_fits(self.definitions, before, row)
    }
}
