// The plain load order: objects of a catalogue in the order in which they joined.
ghost use Rattle.std.specs.Prelude.{◌≡◌, ◌<◌, [], ◌∷◌, ◌++◌, length};
ghost use Rattle.scope.specs.Orders.{LawfulOrder};
ghost use Rattle.scope.specs.OrderProp.{lawful_order_prop};

use super::known::check_known;
use super::scope::Scope;
use arrayvec::ArrayVec;
use catalogue::catalogue::Catalogue;
use elf::refusal::Refusal;
use elf::symbol::Wanted;

// A catalogue and the objects that joined, at most 64, as a catalogue has no more.
#[derive(Drop)]
pub struct LoadOrder<C: Catalogue> {
    catalogue: C,
    objects: ArrayVec<u16, 64>,
    ghost lawful: { LawfulOrder (C.Catalogue.meaning catalogue) objects.items } by { lawful_order_prop (C.Catalogue.meaning catalogue) objects.items },
}

// Puts an object behind the others of a list that has room.
fn append(objects: &mut ArrayVec<u16, 64>, object: u16)
    requires { length objects.old.items < 64 }
    ensures { objects.new.items ≡ objects.old.items ++ (object ∷ []) }
{
    objects.push(object);
}

impl<C: Catalogue> LoadOrder<C> {
    // An order that no object has joined yet.
    pub fn new(catalogue: C) -> LoadOrder<C>
        ensures objects { C.Catalogue.meaning result.catalogue ≡ C.Catalogue.meaning catalogue }
        ensures order { result.objects.items ≡ [] }
    {
        LoadOrder {
            catalogue,
            objects: ArrayVec::new(),
        }
    }
}

impl<C: Catalogue> Scope for LoadOrder<C> {
    type Of = C;

    ghost objects = { λ s. C.Catalogue.meaning s.catalogue };

    ghost order = { λ s. s.objects.items };

    ghost ordered = { λ s. s.lawful };

    ghost kept = { λ s. C.Catalogue.kept s.catalogue };

    fn catalogue(&self) -> &C {
        &self.catalogue
    }

    fn order(&self) -> &[u16] {
        self.objects.as_slice()
    }

    fn find(&mut self, wanted: Wanted) -> Option<(u16, u16)> {
        for object in self.objects.as_slice() {
            if let Some(symbol) = self.catalogue.offer(*object, wanted) {
                return Some((*object, symbol));
            }
        }
        None
    }

    fn join(&mut self, object: u16) -> Result<(), Refusal> {
        check_known(&self.catalogue, object)?;
        if self.objects.contains(&object) {
            return Err(Refusal::Twice {
                object: usize::from(object),
            });
        }
        append(&mut self.objects, object);
        Ok(())
    }

    fn leave(&mut self, object: u16) -> Result<(), Refusal> {
        if !self.objects.contains(&object) {
            return Err(Refusal::NotThere {
                object: usize::from(object),
            });
        }
        self.objects.retain(|other| *other != object);
        Ok(())
    }
}
