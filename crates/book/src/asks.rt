// A book is a catalogue.
ghost use Rattle.book.specs.Held.{objects_of};

use super::whole::Book;
use catalogue::catalogue::Catalogue;
use catalogue::heads::{ObjectHead, ReferenceHead};
use catalogue::name::copy;
use elf::offer::offer;
use elf::refusal::Refusal;
use elf::symbol::Wanted;

impl<'a> Catalogue for Book<'a> {
    ghost meaning = { λ b. objects_of b.objects.items };

    ghost kept = { λ b. b.lawful };

    fn count(&self) -> usize {
        self.objects.len()
    }

    fn object(&self, object: u16) -> Option<ObjectHead> {
        let object = self.object_at(object)?;
        Some(ObjectHead {
            symbolic: object.symbolic,
            needed: object.needed.len(),
            needs: object.needs.len(),
            references: object.references.len(),
        })
    }

    fn needed_target(&self, object: u16, entry: usize) -> Option<u16> {
        self.target(self.needed_at(object, entry)?)
    }

    fn need_weak(&self, object: u16, need: usize) -> Option<bool> {
        Some(self.need_at(object, need)?.weak)
    }

    fn need_target(&self, object: u16, need: usize) -> Option<u16> {
        self.target(self.need_at(object, need)?.file)
    }

    fn need_provided(&self, object: u16, need: usize, by: u16) -> Option<bool> {
        Some(self.provides(by, self.need_at(object, need)?.version))
    }

    fn reference(&self, object: u16, place: usize) -> Option<ReferenceHead> {
        let reference = self.reference_at(object, place)?;
        Some(ReferenceHead {
            number: reference.number,
            weak: reference.weak,
            protected: reference.protected,
            own: reference.own,
        })
    }

    fn reference_name(
        &self,
        object: u16,
        place: usize,
        out: &mut [u8],
    ) -> Result<Option<usize>, Refusal> {
        copy(
            self.reference_at(object, place)
                .map(|reference| reference.name),
            out,
        )
    }

    fn reference_version(
        &self,
        object: u16,
        place: usize,
        out: &mut [u8],
    ) -> Result<Option<usize>, Refusal> {
        copy(
            self.reference_at(object, place)
                .and_then(|reference| reference.version),
            out,
        )
    }

    fn offer(&self, object: u16, wanted: Wanted) -> Option<u16> {
        let object = self.object_at(object)?;
        offer(object.versioned, &object.definitions, wanted)
    }
}
