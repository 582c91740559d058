// Which definition an object offers for a name and a version or none.
ghost use Rattle.std.specs.Prelude.{◌≡◌, filter, map};
ghost use Rattle.elf.specs.Names.{bytes_of};
ghost use Rattle.elf.specs.Offers.{offer_among, definitions_of, serves as serving, basic, visible, sole};
ghost use Rattle.elf.specs.Stored.{definition_of};

use super::symbol::{Definition, Wanted};

impl Definition<'_> {
    // Whether it has the version, hidden or not, or has index 1 and is not hidden.
    fn serves(&self, version: &[u8]) -> bool
        ensures { result ≡ serving version.now (definition_of self.now) }
    {
        self.version.is_some_and(|own| own == version) || self.index == 1 && !self.hidden
    }

    // Whether it has index 1 or 2, hidden or not.
    fn is_basic(&self) -> bool
        ensures { result ≡ basic (definition_of self.now) }
    {
        self.index == 1 || self.index == 2
    }

    // Whether it has index 3 or more and is not hidden.
    fn is_visible(&self) -> bool
        ensures { result ≡ visible (definition_of self.now) }
    {
        self.index >= 3 && !self.hidden
    }
}

// The only visible definition of a name; of several, none.
fn only_visible(definitions: &[Definition], name: &[u8]) -> Option<u16>
    ensures { result ≡ sole (filter visible (definitions_of (map definition_of definitions.now) name.now)) }
{
    let first = definitions.iter().position(|definition| definition.name == name
        && definition.is_visible())?;
    let several = definitions[first + 1..].iter().any(|definition| definition.name == name
        && definition.is_visible());
    if several {
        return None;
    }
    Some(definitions[first].number)
}

// The symbol number that an object offers; its definitions stand by rising number. Without symbol versions the
// wanted version does not count.
pub fn offer(versioned: bool, definitions: &[Definition], wanted: Wanted) -> Option<u16>
    ensures { result ≡ offer_among versioned (map definition_of definitions.now) wanted.entry.name.now (bytes_of wanted.entry.version) }
{
    let mut named = definitions
        .iter()
        .filter(|definition| definition.name == wanted.name);
    match wanted.version {
        _ if !versioned => named.next().map(|definition| definition.number),
        Some(version) => named
            .find(|definition| definition.serves(version))
            .map(|definition| definition.number),
        None => match named.find(|definition| definition.is_basic()) {
            Some(definition) => Some(definition.number),
            None => only_visible(definitions, wanted.name),
        },
    }
}
