// What a scope answers, and how it changes.
ghost use Rattle.std.specs.Prelude.{◌≡◌, ℕ, List};
ghost use Rattle.elf.specs.Meaning.{Object};
ghost use Rattle.catalogue.specs.Lawful.{Lawful};
ghost use Rattle.elf.specs.Names.{bytes_of};
ghost use Rattle.scope.specs.Orders.{LawfulOrder, find as find_in, join_answer, joined, leave_answer, left};

use catalogue::catalogue::Catalogue;
use elf::refusal::Refusal;
use elf::symbol::Wanted;

// A catalogue and an order of different objects from it.
pub trait Scope {
    type Of: Catalogue;

    ghost objects: { Self → List Object };

    ghost order: { Self → List ℕ };

    // The laws, which each `impl` proves.
    ghost ordered: { (s : Self) → LawfulOrder (objects s) (order s) };

    ghost kept: { (s : Self) → Lawful (objects s) };

    // The catalogue below.
    fn catalogue(&self) -> &Self::Of
        ensures { Self.Of.Catalogue.meaning result.now ≡ objects self.now };

    // The objects that joined, in their order.
    fn order(&self) -> &[u16]
        ensures { result.now ≡ order self.now };

    // The first object in the order that offers what is wanted, with its symbol. A layer that keeps answers may note this one.
    fn find(&mut self, wanted: Wanted) -> Option<(u16, u16)>
        ensures objects { objects self.new ≡ objects self.old }
        ensures order { order self.new ≡ order self.old }
        ensures answer { result ≡ find_in (objects self.old) (order self.old) wanted.entry.name.now (bytes_of wanted.entry.version) };

    // Puts an object behind the others.
    fn join(&mut self, object: u16) -> Result<(), Refusal>
        ensures objects { objects self.new ≡ objects self.old }
        ensures answer { result ≡ join_answer (objects self.old) (order self.old) object }
        ensures order { order self.new ≡ joined (objects self.old) (order self.old) object };

    // Takes an object out; the others keep their order.
    fn leave(&mut self, object: u16) -> Result<(), Refusal>
        ensures objects { objects self.new ≡ objects self.old }
        ensures answer { result ≡ leave_answer (order self.old) object }
        ensures order { order self.new ≡ left (order self.old) object };
}
