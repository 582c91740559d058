// Loading the new objects of a link: they join the scope, and leave it again where a check refuses.
ghost use Rattle.std.specs.Prelude.{◌≡◌, ◌++◌};
ghost use Rattle.graph.specs.Graph.{Apart};
ghost use Rattle.elf.specs.Refusals.{answer, after};
ghost use Rattle.scope.specs.Orders.{LawfulOrder};
ghost use Rattle.session.specs.Checks.{batch_refusal};

use super::checks::check_all;
use super::join::{join_all, leave_all};
use elf::refusal::Refusal;
use scope::scope::Scope;

// Puts new objects behind the loaded ones if they pass the checks; else the scope keeps its order.
pub fn load<S: Scope>(scope: &mut S, list: &[u16]) -> Result<(), Refusal>
    requires listed { LawfulOrder (S.Scope.objects scope.old) list.now }
    requires apart { Apart list.now (S.Scope.order scope.old) }
    ensures objects { S.Scope.objects scope.new ≡ S.Scope.objects scope.old }
    ensures answer { result ≡ answer (batch_refusal (S.Scope.objects scope.old) (S.Scope.order scope.old) list.now) tt }
    ensures order { S.Scope.order scope.new ≡ after (batch_refusal (S.Scope.objects scope.old) (S.Scope.order scope.old) list.now) (S.Scope.order scope.old) (S.Scope.order scope.old ++ list.now) }
{
    join_all(scope, list);
    let checked = check_all(scope, list);
    if checked.is_err() {
        leave_all(scope, list);
    }
    checked
}
