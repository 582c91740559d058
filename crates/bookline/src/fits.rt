// How a line fits behind the lines before it in its object.
ghost use Rattle.std.specs.Prelude.{◌≡◌, not, map};
ghost use Rattle.std.specs.Option.{option_map};
ghost use Rattle.graph.specs.Graph.{among};
ghost use Rattle.elf.specs.Names.{bytes_of};
ghost use Rattle.elf.specs.Meaning.{numbered as numbered_of};
ghost use Rattle.elf.specs.Stored.{definition_of, reference_of};
ghost use Rattle.catalogue.specs.Lawful.{index_fits, same_version, agrees as agrees_with};
ghost use Rattle.format.specs.Lines.{last, new_index, def_fits, ref_fits};
ghost use Rattle.bookline.specs.Rows.{version_of};

use elf::symbol::{Definition, Reference};

// Whether an index stands in no earlier `version` line.
pub fn new_index(before: &[u16], index: u16) -> bool
    ensures { result ≡ not (among index before.now) }
{
    for earlier in before {
        if index == *earlier {
            return false;
        }
    }
    true
}

// Whether a version's index stands in no earlier `version` line.
pub fn version_fits(before: &[(&[u8], u16)], row: &(&[u8], u16)) -> bool
    ensures { result ≡ new_index (map version_of before.now) (version_of row.now) }
{
    !before.iter().any(|earlier| earlier.1 == row.1)
}

// Whether an index is 1 to 255 in an object with symbol versions, else 0 and not hidden.
fn index_fits(versioned: bool, row: &Definition) -> bool
    ensures { result ≡ index_fits versioned (definition_of row.now) }
{
    if versioned {
        row.index >= 1 && row.index <= 255
    } else {
        row.index == 0 && !row.hidden
    }
}

// Whether a definition's number rises, and its index fits the object's flag.
pub fn def_fits(versioned: bool, before: &[Definition], row: &Definition) -> bool
    ensures { result ≡ def_fits versioned (map definition_of before.now) (definition_of row.now) }
{
    before.last().map_or(0, |definition| definition.number) < row.number
        && index_fits(versioned, row)
}

// The definition of a symbol number.
fn numbered<'a>(definitions: &[Definition<'a>], number: u16) -> Option<Definition<'a>>
    ensures { option_map definition_of result ≡ numbered_of (map definition_of definitions.now) number }
{
    definitions
        .iter()
        .find(|definition| definition.number == number)
        .copied()
}

// Whether a reference says the same as the definition of its number, if there is one.
fn agrees(row: &Reference, found: Option<Definition>) -> bool
    ensures { result ≡ agrees_with (reference_of row.now) (option_map definition_of found.entry) }
{
    let Some(definition) = found else {
        return !row.own && !row.protected;
    };
    row.own
        && row.name == definition.name
        && row.version == definition.version
        && row.weak == definition.weak
        && row.protected == definition.protected
}

// Whether a reference's number rises, and it agrees with what the object defines.
pub fn ref_fits(definitions: &[Definition], before: &[Reference], row: &Reference) -> bool
    ensures { result ≡ ref_fits (map definition_of definitions.now) (map reference_of before.now) (reference_of row.now) }
{
    before.last().map_or(0, |reference| reference.number) < row.number
        && agrees(row, numbered(definitions, row.number))
}
