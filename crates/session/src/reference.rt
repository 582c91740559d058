// What a catalogue tells of an object and of a reference, with copies of its names, and the line of its row.
ghost use Rattle.std.specs.Prelude.{◌≡◌, ◌≤◌, length, take, IfSome};
ghost use Rattle.std.specs.Option.{option_map};
ghost use Rattle.elf.specs.Meaning.{object as object_of, reference_at};
ghost use Rattle.catalogue.specs.Buffers.{name_buffer};
ghost use Rattle.catalogue.specs.Questions.{asked_at, object_head, reference_head, reference_version};
ghost use Rattle.session.specs.Lines.{binding_line};
ghost use Rattle.session.specs.Texts.{name_of, line_of};
ghost use Rattle.session.specs.View.{binding_of};

use super::line::{Line, Symbol};
use super::name::Name;
use super::table::Row;
use catalogue::catalogue::Catalogue;
use catalogue::heads::{ObjectHead, ReferenceHead};
use scope::scope::Scope;

// Whether an object is symbolic, and how long its lists are.
pub fn head<S: Scope>(scope: &S, object: u16) -> ObjectHead
    ensures { result ≡ object_head (object_of (S.Scope.objects scope.now) object) }
{
    scope.catalogue().object(object).unwrap_or_default()
}

// The symbol number and the flags of a reference.
pub fn reference<S: Scope>(scope: &S, object: u16, place: usize) -> ReferenceHead
    ensures { result ≡ reference_head (reference_at (S.Scope.objects scope.now) object place) }
{
    scope
        .catalogue()
        .reference(object, place)
        .unwrap_or_default()
}

// Here and not beside the struct, since what its clause cites names the struct.
impl Name {
    pub fn bytes(&self) -> &[u8]
        ensures value { result.now ≡ name_of self.now }
        ensures length { length result.now ≤ 255 }
    {
        &self.bytes[..self.len]
    }
}

// Writes the name of a reference to the front of a buffer, where a lawful name fits, and answers its length.
pub fn name_to<S: Scope>(scope: &S, object: u16, place: usize, out: &mut [u8; 255]) -> usize
    ensures name { take result out.new ≡ (reference_at (S.Scope.objects scope.now) object place).name }
    ensures buffer { out.new ≡ name_buffer (asked_at (S.Scope.objects scope.now) object (λ o. o.references) place (λ x. x.name)) out.old }
    ensures fits { result ≤ 255 }
{
    scope
        .catalogue()
        .reference_name(object, place, out)
        .unwrap_or(None)
        .unwrap_or(0)
}

// Writes the version of a reference to the front of a buffer, and answers its length, none where it has none.
pub fn version_to<S: Scope>(
    scope: &S,
    object: u16,
    place: usize,
    out: &mut [u8; 255],
) -> Option<usize>
    ensures version { option_map (λ n. take n out.new) result ≡ (reference_at (S.Scope.objects scope.now) object place).version }
    ensures buffer { out.new ≡ name_buffer (reference_version (S.Scope.objects scope.now) object place) out.old }
    ensures fits { IfSome result (λ n. n ≤ 255) }
{
    scope
        .catalogue()
        .reference_version(object, place, out)
        .unwrap_or(None)
}

// A copy of the name of a reference.
pub fn name_at<S: Scope>(scope: &S, object: u16, place: usize) -> Name
    ensures { name_of result ≡ (reference_at (S.Scope.objects scope.now) object place).name }
{
    let mut bytes = [0; 255];
    let len = name_to(scope, object, place, &mut bytes);
    Name { bytes, len }
}

// The line of a row: an own symbol that took another definition is over.
pub fn row_line<S: Scope>(scope: &S, row: &Row) -> Line
    ensures { line_of result ≡ binding_line (binding_of (S.Scope.objects scope.now) row.now) }
{
    let object = row.object;
    let place = usize::from(row.place);
    let asked = reference(scope, object, place);
    let symbol = Symbol {
        object,
        number: asked.number,
        name: name_at(scope, object, place),
    };
    let over = asked.own && row.taken != Some((object, asked.number));
    match row.taken {
        None => Line::None(symbol),
        Some((by, taken)) if over => Line::Over(symbol, by, taken),
        Some((by, taken)) => Line::Bind(symbol, by, taken),
    }
}
