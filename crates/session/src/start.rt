// The order in which new objects start, depth first along needed entries.
ghost use Rattle.std.specs.Prelude.{◌≡◌, ◌<◌, [], length};
ghost use Rattle.graph.specs.Graph.{among, enter, leave, visit as visit_of};
ghost use Rattle.elf.specs.Meaning.{targets};
ghost use Rattle.scope.specs.Orders.{LawfulOrder};
ghost use Rattle.session.specs.Walks.{start_order};

use super::reference::head;
use super::table::Objects;
use super::walk::needed_target;
use catalogue::catalogue::Catalogue;
use scope::scope::Scope;
use std::marker::Model;

// The objects that were entered, and those that were put down, which are no more.
#[derive(Drop)]
struct Marks {
    entered: Objects,
    finished: Objects,
}

impl Model for Marks {
    ghost use Rattle.std.specs.Prelude.{◌≤◌, length};
    ghost use Rattle.graph.specs.Graph.{Marks as Both};

    ghost Value = { Both };

    ghost view = { λ m. record { entered = m.entered.items; finished = m.finished.items } };

    ghost invariant = { λ m. (length m.finished.items ≤ length m.entered.items) × (length m.entered.items ≤ 64) };
}

impl Marks {
    fn new() -> Marks
        ensures { result ≡ record { entered = []; finished = [] } }
    {
        Marks {
            entered: Objects::new(),
            finished: Objects::new(),
        }
    }

    fn is_entered(&self, object: u16) -> bool
        ensures { result ≡ among object self.now.entered }
    {
        self.entered.contains(&object)
    }

    fn enter(&mut self, object: u16)
        requires { length self.old.entered < 64 }
        ensures entered { self.new ≡ enter object self.old }
        ensures room { length self.new.finished < length self.new.entered }
    {
        self.entered.push(object);
    }

    fn leave(&mut self, object: u16)
        requires { length self.old.finished < length self.old.entered }
        ensures { self.new ≡ leave object self.old }
    {
        self.finished.push(object);
    }
}

// Enters a new object that was not entered, visits its targets in turn, and puts it down after them.
fn visit<S: Scope>(scope: &S, depth: usize, object: u16, new: &[u16], marks: &mut Marks)
    requires listed { LawfulOrder (S.Scope.objects scope.now) new.now }
    requires marked { LawfulOrder (S.Scope.objects scope.now) marks.old.entered }
    ensures { marks.new ≡ visit_of (targets (S.Scope.objects scope.now)) new.now depth object marks.old }
{
    if depth > 0 && new.contains(&object) && !marks.is_entered(object) {
        marks.enter(object);
        for entry in 0..head(scope, object).needed {
            if let Some(target) = needed_target(scope, object, entry) {
                visit(scope, depth - 1, target, new, marks);
            }
        }
        marks.leave(object);
    }
}

// The new objects in the order in which visits from some objects in turn put them down.
pub fn start_order<S: Scope>(scope: &S, new: &[u16], from: &[u16]) -> Objects
    requires { LawfulOrder (S.Scope.objects scope.now) new.now }
    ensures order { result.items ≡ start_order (S.Scope.objects scope.now) new.now from.now }
    ensures lawful { LawfulOrder (S.Scope.objects scope.now) result.items }
{
    let depth = scope.catalogue().count();
    let mut marks = Marks::new();
    for object in from {
        visit(scope, depth, *object, new, &mut marks);
    }
    marks.finished
}
