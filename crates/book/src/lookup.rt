// Entries of a book's objects, by their numbers, places and names.
ghost use Rattle.std.specs.Prelude.{◌≡◌};
ghost use Rattle.std.specs.Option.{option_map};
ghost use Rattle.std.specs.List.{slice_get};
ghost use Rattle.elf.specs.Meaning.{object as object_in, target as target_in};
ghost use Rattle.elf.specs.Stored.{reference_of, need_of};
ghost use Rattle.catalogue.specs.Questions.{provides as provided};
ghost use Rattle.book.specs.Held.{object_of, objects_of};

use super::object::BookObject;
use super::whole::Book;
use elf::symbol::{Reference, VersionNeed};

impl<'a> Book<'a> {
    // The object of a number, none past the end.
    pub(super) fn object_at(&self, number: u16) -> Option<&BookObject<'a>>
        ensures { option_map (λ o. object_of o.now) result ≡ slice_get (objects_of self.now.objects.items) number }
    {
        self.objects.get(usize::from(number))
    }

    pub(super) fn needed_at(&self, number: u16, place: usize) -> Option<&'a [u8]>
        ensures { option_map (λ x. x.now) result ≡ slice_get (object_in (objects_of self.now.objects.items) number).needed place }
    {
        self.object_at(number)?.needed.get(place).copied()
    }

    pub(super) fn need_at(&self, number: u16, place: usize) -> Option<VersionNeed<'a>>
        ensures { option_map need_of result ≡ slice_get (object_in (objects_of self.now.objects.items) number).needs place }
    {
        self.object_at(number)?.needs.get(place).copied()
    }

    pub(super) fn reference_at(&self, number: u16, place: usize) -> Option<Reference<'a>>
        ensures { option_map reference_of result ≡ slice_get (object_in (objects_of self.now.objects.items) number).references place }
    {
        self.object_at(number)?.references.get(place).copied()
    }

    // The first object with a soname.
    pub(super) fn target(&self, name: &[u8]) -> Option<u16>
        ensures { result ≡ target_in (objects_of self.now.objects.items) name.now }
    {
        let place = self
            .objects
            .iter()
            .position(|object| object.soname == Some(name))?;
        Some(place as u16)
    }

    // Whether an object provides a version.
    pub(super) fn provides(&self, number: u16, version: &[u8]) -> bool
        ensures { result ≡ provided (object_in (objects_of self.now.objects.items) number) version.now }
    {
        let Some(object) = self.object_at(number) else {
            return true;
        };
        object.versions.is_empty() || object.versions.iter().any(|own| own.0 == version)
    }
}
