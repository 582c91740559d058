// What clauses see of a scope.
ghost use Rattle.std.specs.Prelude.{ℕ, List};
ghost use Rattle.elf.specs.Meaning.{Object};

use scope::scope::Scope;

// The bound of `Setup` and `Linked`, which each scope has: it names no associated type. Where `Scope` itself stood there,
// a function that isn't generic could not own a session over a borrowed book.
pub trait Seen {
    ghost objects: { Self → List Object };

    ghost order: { Self → List ℕ };
}

impl<S: Scope> Seen for S {
    ghost objects = { λ s. S.Scope.objects s };

    ghost order = { λ s. S.Scope.order s };
}
