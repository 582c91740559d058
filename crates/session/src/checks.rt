// The checks of a link: targets, versions, room and bindings, each with the first refusal in list order.
ghost use Rattle.std.specs.Prelude.{◌≡◌, ℕ, Option, false};
ghost use Rattle.std.specs.Option.{unwrap_or};
ghost use Rattle.elf.specs.declared.refusal.Refusal.{Refusal};
ghost use Rattle.elf.specs.Names.{first};
ghost use Rattle.elf.specs.Refusals.{answer};
ghost use Rattle.catalogue.specs.Questions.{asked_at};
ghost use Rattle.session.specs.Checks.{no_target, is_met, no_version, many_bindings, unbound, check_refusal};

use super::bind::bind;
use super::reference::{head, reference};
use super::walk::{is_loaded, needed_target};
use catalogue::catalogue::Catalogue;
use elf::refusal::Refusal;
use scope::scope::Scope;

// Refuses what a check refuses first among some objects.
fn check_each<F: Fn(u16) -> Result<(), Refusal>>(list: &[u16], check: F) -> Result<(), Refusal>
    requires { F.IsAlwaysCallable check }
    ensures { (f : ℕ → Option Refusal) → ((o : ℕ) (r : _) → F.post check o r → r ≡ answer (f o) tt) → result ≡ answer (first f list.now) tt }
{
    for object in list {
        check(*object)?;
    }
    Ok(())
}

// Refuses the first needed entry of an object that leads to none.
#[tactic(auto, using(crate::proofs::Asked::entry_left))]
fn check_entries<S: Scope>(scope: &S, object: u16) -> Result<(), Refusal>
    ensures { result ≡ answer (no_target (S.Scope.objects scope.now) object) tt }
{
    for entry in 0..head(scope, object).needed {
        if needed_target(scope, object, entry).is_none() {
            return Err(Refusal::NoTarget {
                object: usize::from(object),
                entry,
            });
        }
    }
    Ok(())
}

// Whether a need is met: it leads to an object in the scope that provides the version.
fn is_met<S: Scope>(scope: &S, object: u16, need: usize) -> bool
    ensures { result ≡ unwrap_or (asked_at (S.Scope.objects scope.now) object (λ o. o.needs) need (is_met (S.Scope.objects scope.now) (S.Scope.order scope.now))) false }
{
    scope
        .catalogue()
        .need_target(object, need)
        .is_some_and(|target| {
            is_loaded(scope, target)
                && scope
                    .catalogue()
                    .need_provided(object, need, target)
                    .unwrap_or(false)
        })
}

// Refuses the first version need of an object that is neither weak nor met.
#[tactic(auto, using(crate::proofs::Asked::need_left, std::proofs::lemmas::Grind::common_steps))]
fn check_versions<S: Scope>(scope: &S, object: u16) -> Result<(), Refusal>
    ensures { result ≡ answer (no_version (S.Scope.objects scope.now) (S.Scope.order scope.now) object) tt }
{
    for need in 0..head(scope, object).needs {
        let weak = scope.catalogue().need_weak(object, need).unwrap_or(false);
        if !weak && !is_met(scope, object, need) {
            return Err(Refusal::NoVersion {
                object: usize::from(object),
                need,
            });
        }
    }
    Ok(())
}

// Refuses the first object in the scope whose references no longer fit among 4,096.
fn check_room<S: Scope>(scope: &S) -> Result<(), Refusal>
    ensures { result ≡ answer (many_bindings (S.Scope.objects scope.now) 4096 (S.Scope.order scope.now)) tt }
{
    let mut room = 4096;
    for object in scope.order() {
        let count = head(scope, *object).references;
        if room < count {
            return Err(Refusal::ManyBindings {
                object: usize::from(*object),
            });
        }
        room -= count;
    }
    Ok(())
}

// Refuses the first strong reference of an object that takes nothing.
fn check_references<S: Scope>(scope: &mut S, object: u16) -> Result<(), Refusal>
    ensures objects { S.Scope.objects scope.new ≡ S.Scope.objects scope.old }
    ensures order { S.Scope.order scope.new ≡ S.Scope.order scope.old }
    ensures answer { result ≡ answer (unbound (S.Scope.objects scope.old) (S.Scope.order scope.old) object) tt }
{
    for place in 0..head(scope, object).references {
        let asked = reference(scope, object, place);
        if bind(scope, object, place).is_none() && !asked.weak {
            return Err(Refusal::Unbound {
                object: usize::from(object),
                symbol: usize::from(asked.number),
            });
        }
    }
    Ok(())
}

// Refuses the first strong reference of some objects that takes nothing.
fn check_bound<S: Scope>(scope: &mut S, list: &[u16]) -> Result<(), Refusal>
    ensures objects { S.Scope.objects scope.new ≡ S.Scope.objects scope.old }
    ensures order { S.Scope.order scope.new ≡ S.Scope.order scope.old }
    ensures answer { result ≡ answer (first (unbound (S.Scope.objects scope.old) (S.Scope.order scope.old)) list.now) tt }
{
    for object in list {
        check_references(scope, *object)?;
    }
    Ok(())
}

// The checks in turn.
pub fn check_all<S: Scope>(scope: &mut S, list: &[u16]) -> Result<(), Refusal>
    ensures objects { S.Scope.objects scope.new ≡ S.Scope.objects scope.old }
    ensures order { S.Scope.order scope.new ≡ S.Scope.order scope.old }
    ensures answer { result ≡ answer (check_refusal (S.Scope.objects scope.old) (S.Scope.order scope.old) list.now) tt }
{
    check_each(list, |object| check_entries(scope, object))?;
    check_each(list, |object| check_versions(scope, object))?;
    check_room(scope)?;
    check_bound(scope, list)
}
