// What a link finds by needed entries: the new objects, breadth first.
ghost use Rattle.std.specs.Prelude.{◌≡◌, ◌<◌, [], ◌∷◌, length};
ghost use Rattle.graph.specs.Graph.{Apart, Below, among as among_of, grow};
ghost use Rattle.elf.specs.Meaning.{targets};
ghost use Rattle.catalogue.specs.Questions.{needed_target};
ghost use Rattle.scope.specs.Orders.{LawfulOrder};
ghost use Rattle.scope.specs.OrderProp.{lawful_order_prop};
ghost use Rattle.session.specs.Walks.{new_list};

use super::reference::head;
use super::table::Objects;
use catalogue::catalogue::Catalogue;
use scope::scope::Scope;

// Whether an object is loaded.
pub fn is_loaded<S: Scope>(scope: &S, object: u16) -> bool
    ensures { result ≡ among_of object (S.Scope.order scope.now) }
{
    scope.order().contains(&object)
}

// The object that a needed entry leads to.
pub fn needed_target<S: Scope>(scope: &S, object: u16, entry: usize) -> Option<u16>
    ensures { result ≡ needed_target (S.Scope.objects scope.now) object entry }
{
    scope.catalogue().needed_target(object, entry)
}

// The new objects found so far, none of them loaded.
#[derive(Drop)]
struct NewList<'a, S: Scope> {
    scope: &'a S,
    list: Objects,
    ghost lawful: { LawfulOrder (S.Scope.objects scope.now) list.items } by { lawful_order_prop (S.Scope.objects scope.now) list.items },
}

impl<'a, S: Scope> NewList<'a, S> {
    // Puts an object behind the others, unless it is loaded or listed.
    fn add(&mut self, object: u16)
        requires { object < length (S.Scope.objects self.old.scope.now) }
        ensures scope { self.new.scope.now ≡ self.old.scope.now }
        ensures list { self.new.list.items ≡ grow (S.Scope.order self.old.scope.now) self.old.list.items (object ∷ []) }
    {
        if !is_loaded(self.scope, object) && !self.list.contains(&object) {
            self.list.push(object);
        }
    }

    // Puts the needed targets of an object behind the others, without those that are loaded or listed.
    fn add_needed(&mut self, object: u16)
        ensures scope { self.new.scope.now ≡ self.old.scope.now }
        ensures list { self.new.list.items ≡ grow (S.Scope.order self.old.scope.now) self.old.list.items (targets (S.Scope.objects self.old.scope.now) object) }
    {
        for entry in 0..head(self.scope, object).needed {
            if let Some(target) = needed_target(self.scope, object, entry) {
                self.add(target);
            }
        }
    }
}

// The objects that a link starts from, and then needed targets in turn, without those that are loaded.
pub fn new_list<S: Scope>(scope: &S, from: &[u16]) -> Objects
    requires { Below (length (S.Scope.objects scope.now)) from.now }
    ensures list { result.items ≡ new_list (S.Scope.objects scope.now) (S.Scope.order scope.now) from.now }
    ensures lawful { LawfulOrder (S.Scope.objects scope.now) result.items }
    ensures apart { Apart result.items (S.Scope.order scope.now) }
{
    let mut new = NewList {
        scope,
        list: Objects::new(),
    };
    for object in from {
        new.add(*object);
    }
    // The list grows as it is walked, to at most all objects of the catalogue.
    for place in 0..scope.catalogue().count() {
        if let Some(&object) = new.list.get(place) {
            new.add_needed(object);
        }
    }
    new.list
}
