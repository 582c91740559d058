// A session in set-up: it takes preloads and tries to link.
ghost use Rattle.std.specs.Prelude.{◌≡◌, ◌+◌, ◌≤◌, true, [], ◌++◌, length};
ghost use Rattle.scope.specs.Orders.{LawfulOrder};
ghost use Rattle.session.specs.State.{initial, is_linked};
ghost use Rattle.session.specs.Calls.{preload, link};
ghost use Rattle.session.specs.View.{bare, InSetup, Shows};

use super::join::empty;
use super::linked::Linked;
use super::load::load;
use super::rows::bind_all;
use super::seen::Seen;
use super::start::start_order;
use super::table::Tables;
use super::walk::new_list;
use arrayvec::ArrayVec;
use catalogue::catalogue::Catalogue;
use elf::refusal::{Limit, Refusal};
use scope::known::check_known;
use scope::scope::Scope;
use std::marker::Model;

// Some objects and then others: the root and the preloads, at most five.
fn chained(first: &[u16], then: &[u16]) -> ArrayVec<u16, 5>
    requires { length first.now + length then.now ≤ 5 }
    ensures { result.items ≡ first.now ++ then.now }
{
    let mut all = ArrayVec::new();
    all.try_extend_from_slice(first).unwrap();
    all.try_extend_from_slice(then).unwrap();
    all
}

// A session that takes preloads and tries to link; clauses see it as a `Session`.
#[derive(Drop)]
pub struct Setup<S: Seen> {
    scope: S,
    tables: Tables,
}

impl<S: Seen> Model for Setup<S> {
    ghost use Rattle.std.specs.Prelude.{◌≤◌, length};
    ghost use Rattle.scope.specs.Orders.{LawfulOrder};
    ghost use Rattle.session.specs.View.{Session, session_of};

    ghost Value = { Session S };

    ghost view = { λ s. session_of s.scope (S.Seen.objects s.scope) (S.Seen.order s.scope) s.tables };

    ghost invariant = { λ s. LawfulOrder (S.Seen.objects s.scope) s.tables.preloads.items × (length s.tables.preloads.items ≤ 4) };
}

impl<S: Scope> Setup<S> {
    // A session over a scope, which is emptied; no preload is named.
    pub fn new(mut scope: S) -> Setup<S>
        ensures objects { result.objects ≡ S.Scope.objects scope }
        ensures scope { (S.Scope.objects result.scope ≡ S.Scope.objects scope) × (S.Scope.order result.scope ≡ []) }
        ensures state { result.state ≡ initial (S.Scope.objects scope) }
        ensures setup { InSetup result.state }
    {
        empty(&mut scope);
        Setup {
            scope,
            tables: Tables::new(),
        }
    }

    // Names one more object that is loaded behind the root and started before it.
    pub fn preload(&mut self, object: u16) -> Result<(), Refusal>
        requires { InSetup self.old.state }
        ensures scope { self.new.scope ≡ self.old.scope }
        ensures objects { self.new.objects ≡ self.old.objects }
        ensures answer { bare result ≡ (preload self.old.objects self.old.state object).answered }
        ensures next { self.new.state ≡ (preload self.old.objects self.old.state object).next }
        ensures was { Shows (S.Scope.objects self.old.scope) (S.Scope.order self.old.scope) self.old }
        ensures shown { Shows (S.Scope.objects self.new.scope) (S.Scope.order self.new.scope) self.new }
        ensures preloads { LawfulOrder self.new.objects self.new.state.preloads }
        ensures few { length self.new.state.preloads ≤ 4 }
        ensures setup { InSetup self.new.state }
    {
        check_known(self.scope.catalogue(), object)?;
        if self.tables.preloads.contains(&object) {
            return Err(Refusal::Twice {
                object: usize::from(object),
            });
        }
        self.tables
            .preloads
            .try_push(object)
            .map_err(|_| Refusal::TooMany {
                object: usize::from(object),
                what: Limit::Preloads,
            })
    }

    // Tries to link at a root; a refusal leaves the session as it was.
    pub fn try_link(&mut self, root: u16) -> Result<(), Refusal>
        requires { InSetup self.old.state }
        ensures objects { self.new.objects ≡ self.old.objects }
        ensures scope { S.Scope.objects self.new.scope ≡ S.Scope.objects self.old.scope }
        ensures answer { bare result ≡ (link self.old.objects self.old.state root).answered }
        ensures next { self.new.state ≡ (link self.old.objects self.old.state root).next }
        ensures was { Shows (S.Scope.objects self.old.scope) (S.Scope.order self.old.scope) self.old }
        ensures shown { Shows (S.Scope.objects self.new.scope) (S.Scope.order self.new.scope) self.new }
        ensures preloads { LawfulOrder self.new.objects self.new.state.preloads }
        ensures few { length self.new.state.preloads ≤ 4 }
    {
        check_known(self.scope.catalogue(), root)?;
        let list = new_list(&self.scope, &chained(&[root], &self.tables.preloads));
        load(&mut self.scope, &list)?;
        bind_all(&mut self.scope, &mut self.tables.bindings, &list);
        let starts = chained(&self.tables.preloads, &[root]);
        self.tables.started = start_order(&self.scope, &list, &starts);
        self.tables.root = Some(root);
        Ok(())
    }

    // The move after a granted try.
    pub fn link(self) -> Linked<S>
        requires { is_linked self.state ≡ true }
        ensures same { result ≡ self }
        ensures shown { Shows (S.Scope.objects result.scope) (S.Scope.order result.scope) result }
    {
        let Setup { scope, tables } = self;
        Linked { scope, tables }
    }
}
