// Puts the objects of a list into a scope, and takes them out.
ghost use Rattle.std.specs.Prelude.{◌≡◌, not, [], ◌++◌, filter};
ghost use Rattle.graph.specs.Graph.{Apart, among};
ghost use Rattle.scope.specs.Orders.{LawfulOrder};

use scope::scope::Scope;

// Puts the objects of a list behind those of a scope.
pub fn join_all<S: Scope>(scope: &mut S, list: &[u16])
    requires listed { LawfulOrder (S.Scope.objects scope.old) list.now }
    requires apart { Apart list.now (S.Scope.order scope.old) }
    ensures objects { S.Scope.objects scope.new ≡ S.Scope.objects scope.old }
    ensures order { S.Scope.order scope.new ≡ S.Scope.order scope.old ++ list.now }
{
    for object in list {
        let _ = scope.join(*object);
    }
}

// Takes the objects of a list out of a scope, if they are there.
pub fn leave_all<S: Scope>(scope: &mut S, list: &[u16])
    ensures objects { S.Scope.objects scope.new ≡ S.Scope.objects scope.old }
    ensures order { S.Scope.order scope.new ≡ filter (λ o. not (among o list.now)) (S.Scope.order scope.old) }
{
    for object in list {
        let _ = scope.leave(*object);
    }
}

// Takes every object out of a scope.
pub fn empty<S: Scope>(scope: &mut S)
    ensures objects { S.Scope.objects scope.new ≡ S.Scope.objects scope.old }
    ensures order { S.Scope.order scope.new ≡ [] }
{
    while let Some(&object) = scope.order().first() {
        let _ = scope.leave(object);
    }
}
