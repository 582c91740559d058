// The lines of a book, each read from its fields.
ghost use Rattle.std.specs.Prelude.{◌≡◌, ◌<◌};
ghost use Rattle.std.specs.Option.{option_map};
ghost use Rattle.elf.specs.Names.{bytes_of, only_if, names_of};
ghost use Rattle.elf.specs.Stored.{definition_of, reference_of, need_of};
ghost use Rattle.format.specs.Lines.{has_flag, number_at, is_object, name_row, want_row, version_row, def_row, ref_row};
ghost use Rattle.bookline.specs.Rows.{flags_of, version_of, version_in};

use super::text::number;
use elf::name::is_lawful;
use elf::symbol::{Definition, Reference, VersionNeed};

// What the flags of an `object` line tell.
#[derive(Clone, Copy, PartialEq, Eq, Debug)]
pub struct ObjectFlags {
    pub symbolic: bool,
    pub versioned: bool,
}

// Whether the bit of a value is set in summed flags.
fn has_flag(bit: u16, flags: u16) -> bool
    requires { 0 < bit }
    ensures { result ≡ has_flag bit flags }
{
    flags / bit % 2 == 1
}

// The flags of an `object` line.
pub fn object_row(fields: &[&[u8]]) -> Option<ObjectFlags>
    ensures { result ≡ only_if (is_object (names_of fields.now)) (flags_of (number_at (names_of fields.now) 1)) }
{
    let [word, digits] = *fields else {
        return None;
    };
    if word != b"object".as_slice() {
        return None;
    }
    let flags = number(3, digits)?;
    Some(ObjectFlags {
        symbolic: has_flag(1, flags),
        versioned: has_flag(2, flags),
    })
}

// The name of a `soname` or `needed` line.
pub fn name_row<'a>(wanted: &[u8], fields: &[&'a [u8]]) -> Option<&'a [u8]>
    ensures { bytes_of result ≡ name_row wanted.now (names_of fields.now) }
{
    let [word, name] = *fields else {
        return None;
    };
    if word != wanted || !is_lawful(name) {
        return None;
    }
    Some(name)
}

// The version need of a `want` line.
pub fn want_row<'a>(fields: &[&'a [u8]]) -> Option<VersionNeed<'a>>
    ensures { option_map need_of result ≡ want_row (names_of fields.now) }
{
    let [word, file, version, flags] = *fields else {
        return None;
    };
    if word != b"want".as_slice() || !is_lawful(file) || !is_lawful(version) {
        return None;
    }
    let weak = has_flag(1, number(1, flags)?);
    Some(VersionNeed {
        file,
        version,
        weak,
    })
}

// The name and the index of a `version` line.
pub fn version_row<'a>(fields: &[&'a [u8]]) -> Option<(&'a [u8], u16)>
    ensures { option_map version_of result ≡ version_row (names_of fields.now) }
{
    let [word, name, index] = *fields else {
        return None;
    };
    if word != b"version".as_slice() || !is_lawful(name) {
        return None;
    }
    let index = number(255, index)?;
    if index < 2 {
        return None;
    }
    Some((name, index))
}

// The version in what is left of a line about a symbol: one lawful field, or none.
fn version_in<'a>(rest: &[&'a [u8]]) -> Option<Option<&'a [u8]>>
    ensures { option_map bytes_of result ≡ version_in (names_of rest.now) }
{
    match *rest {
        [] => Some(None),
        [version] if is_lawful(version) => Some(Some(version)),
        _ => None,
    }
}

// The definition of a `def` line; the top bit of its index hides it, and from index 2 on it has a version.
pub fn def_row<'a>(fields: &[&'a [u8]]) -> Option<Definition<'a>>
    ensures { option_map definition_of result ≡ def_row (names_of fields.now) }
{
    let [word, symbol, name, versym, flags, rest @ ..] = fields else {
        return None;
    };
    if *word != b"def".as_slice() || !is_lawful(name) {
        return None;
    }
    let symbol = number(65535, symbol)?;
    let versym = number(65535, versym)?;
    let flags = number(3, flags)?;
    let version = version_in(rest)?;
    let index = versym % 32768;
    if version.is_some() != (index >= 2) {
        return None;
    }
    Some(Definition {
        number: symbol,
        name,
        index,
        hidden: versym >= 32768,
        weak: has_flag(1, flags),
        protected: has_flag(2, flags),
        version,
    })
}

// The reference of a `ref` line, which may have a version.
pub fn ref_row<'a>(fields: &[&'a [u8]]) -> Option<Reference<'a>>
    ensures { option_map reference_of result ≡ ref_row (names_of fields.now) }
{
    let [word, symbol, name, flags, rest @ ..] = fields else {
        return None;
    };
    if *word != b"ref".as_slice() || !is_lawful(name) {
        return None;
    }
    let symbol = number(65535, symbol)?;
    let flags = number(7, flags)?;
    let version = version_in(rest)?;
    Some(Reference {
        number: symbol,
        name,
        weak: has_flag(1, flags),
        protected: has_flag(2, flags),
        own: has_flag(4, flags),
        version,
    })
}
