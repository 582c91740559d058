// A text of at most 320 bytes, with no heap, and how it grows.
ghost use Rattle.std.specs.Prelude.{◌≡◌, ℕ, List, ◌+◌, ◌<◌, ◌≤◌, [], ◌∷◌, ◌++◌, length};
ghost use Rattle.catalogue.specs.Buffers.{write_answer, written_front};
ghost use Rattle.session.specs.Lines.{name_field};
ghost use Rattle.session.specs.Tabled.{blank, spare_behind};

use catalogue::name::write_front;
use elf::refusal::Refusal;
use itoa::{Buffer, Integer};
use std::marker::Model;

// The first `len` bytes count; clauses see them beside those that don't. `write!` does not serve: it names the bytes
// only where it answers `Ok`, and never says that it does.
#[derive(Clone, Copy)]
pub struct Text {
    pub bytes: [u8; 320],
    pub len: usize,
}

impl Model for Text {
    ghost use Rattle.std.specs.Prelude.{◌≡◌, ◌≤◌, ◌++◌, length, take, drop};
    ghost use Rattle.std.proofs.Common.{arith, take-append-drop, length-take-le};
    ghost use Rattle.session.specs.Tabled.{Tabled};

    ghost Value = { Tabled };

    ghost view = { λ t. record { bytes = take t.len t.bytes; spare = drop t.len t.bytes } };

    ghost invariant = { λ t. (t.len ≤ 320) × (length t.bytes ≡ 320) };

    ghost inverse = { λ t. record { bytes = t.bytes ++ t.spare; len = length t.bytes } };

    ghost inverse_ok = { λ t h i. record {
      bytes = take-append-drop t.len t.bytes i;
      len = length-take-le t.len t.bytes (omega (arith, h.0, h.1)) i;
    } };
}

impl Text {
    pub fn new() -> Text
        ensures bytes { result.bytes ≡ [] }
        ensures spare { result.spare ≡ blank.spare }
    {
        Text {
            bytes: [0; 320],
            len: 0,
        }
    }

    pub fn bytes(&self) -> &[u8]
        ensures value { result.now ≡ self.now.bytes }
        ensures length { length result.now ≤ 320 }
    {
        &self.bytes[..self.len]
    }

    // Writes the text at the front of a buffer; a shorter buffer is refused and left as it was.
    pub fn copy_to(&self, out: &mut [u8]) -> Result<usize, Refusal>
        ensures answer { result ≡ write_answer self.now.bytes (length out.old) }
        ensures buffer { out.new ≡ written_front self.now.bytes out.old }
    {
        write_front(self.bytes(), out)
    }

    // More bytes at the end.
    pub fn push(&mut self, more: &[u8])
        requires { length self.old.bytes + length more.now ≤ 320 }
        ensures bytes { self.new.bytes ≡ self.old.bytes ++ more.now }
        ensures spare { self.new.spare ≡ spare_behind self.old self.new.bytes }
    {
        let end = self.len + more.len();
        self.bytes[self.len..end].copy_from_slice(more);
        self.len = end;
    }

    // A space and then a name.
    pub fn field(&mut self, name: &[u8])
        requires { length self.old.bytes + length name.now < 320 }
        ensures bytes { self.new.bytes ≡ self.old.bytes ++ name_field name.now }
        ensures spare { self.new.spare ≡ spare_behind self.old self.new.bytes }
    {
        self.push(b" ");
        self.push(name);
    }

    // A space and then a number.
    pub fn number<N: Integer>(&mut self, n: N)
        requires { length self.old.bytes + N.MAX_STR_LEN < 320 }
        ensures value { self.new.bytes ≡ self.old.bytes ++ (32 ∷ N.text n) }
        ensures spare { self.new.spare ≡ spare_behind self.old self.new.bytes }
        ensures length { length self.new.bytes ≤ length self.old.bytes + N.MAX_STR_LEN + 1 }
    {
        self.field(Buffer::new().format(n).as_bytes());
    }
}
