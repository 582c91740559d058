// What a catalogue of objects answers.
ghost use Rattle.std.specs.Prelude.{◌≡◌, ℕ, List, length};
ghost use Rattle.elf.specs.Meaning.{Object};
ghost use Rattle.catalogue.specs.Lawful.{Lawful};
ghost use Rattle.catalogue.specs.Questions.{asked, asked_at, object_head, needed_target, need_target, need_provided, reference_head, reference_version, offered};
ghost use Rattle.catalogue.specs.Buffers.{name_answer, name_buffer};
ghost use Rattle.elf.specs.Names.{bytes_of};

use super::heads::{ObjectHead, ReferenceHead};
use elf::refusal::Refusal;
use elf::symbol::Wanted;

// A fixed list of objects. Past the end of a catalogue or of a list the answer is none.
pub trait Catalogue {
    ghost meaning: { Self → List Object };

    ghost kept: { (c : Self) → Lawful (meaning c) };

    fn count(&self) -> usize
        ensures { result ≡ length (meaning self.now) };

    // Whether an object is symbolic, and how long its lists are.
    fn object(&self, object: u16) -> Option<ObjectHead>
        ensures { result ≡ asked (meaning self.now) object object_head };

    // The object that an entry leads to; none also past the last entry.
    fn needed_target(&self, object: u16, entry: usize) -> Option<u16>
        ensures { result ≡ needed_target (meaning self.now) object entry };

    fn need_weak(&self, object: u16, need: usize) -> Option<bool>
        ensures { result ≡ asked_at (meaning self.now) object (λ o. o.needs) need (λ n. n.weak) };

    fn need_target(&self, object: u16, need: usize) -> Option<u16>
        ensures { result ≡ need_target (meaning self.now) object need };

    // Whether an object provides the version that another object's need wants.
    fn need_provided(&self, object: u16, need: usize, by: u16) -> Option<bool>
        ensures { result ≡ need_provided (meaning self.now) object need by };

    // What a reference says besides its name and its version.
    fn reference(&self, object: u16, place: usize) -> Option<ReferenceHead>
        ensures { result ≡ asked_at (meaning self.now) object (λ o. o.references) place reference_head };

    // The name is copied to the front of the buffer; a shorter buffer is refused and left as it was.
    fn reference_name(
        &self,
        object: u16,
        place: usize,
        out: &mut [u8],
    ) -> Result<Option<usize>, Refusal>
        ensures answer { result ≡ name_answer (asked_at (meaning self.now) object (λ o. o.references) place (λ x. x.name)) (length out.old) }
        ensures buffer { out.new ≡ name_buffer (asked_at (meaning self.now) object (λ o. o.references) place (λ x. x.name)) out.old };

    fn reference_version(
        &self,
        object: u16,
        place: usize,
        out: &mut [u8],
    ) -> Result<Option<usize>, Refusal>
        ensures answer { result ≡ name_answer (reference_version (meaning self.now) object place) (length out.old) }
        ensures buffer { out.new ≡ name_buffer (reference_version (meaning self.now) object place) out.old };

    // The symbol that an object offers for a name and a version or none.
    fn offer(&self, object: u16, wanted: Wanted) -> Option<u16>
        ensures { result ≡ offered (meaning self.now) object wanted.entry.name.now (bytes_of wanted.entry.version) };
}
