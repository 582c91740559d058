// Bytes copied to the front of a buffer.
ghost use Rattle.std.specs.Prelude.{◌≡◌, length};
ghost use Rattle.elf.specs.Names.{bytes_of};
ghost use Rattle.catalogue.specs.Buffers.{write_answer, written_front, name_answer, name_buffer};

use elf::refusal::Refusal;

// Copies bytes to the front of a buffer, and answers how many; a shorter buffer is refused and left as it was.
pub fn write_front(bytes: &[u8], out: &mut [u8]) -> Result<usize, Refusal>
    ensures answer { result ≡ write_answer bytes.now (length out.old) }
    ensures buffer { out.new ≡ written_front bytes.now out.old }
{
    if out.len() < bytes.len() {
        return Err(Refusal::ShortBuffer {
            needed: bytes.len(),
        });
    }
    out[..bytes.len()].copy_from_slice(bytes);
    Ok(bytes.len())
}

// Copies a name that is told to the front of a buffer; a shorter buffer is refused and left as it was.
pub fn copy(name: Option<&[u8]>, out: &mut [u8]) -> Result<Option<usize>, Refusal>
    ensures answer { result ≡ name_answer (bytes_of name.entry) (length out.old) }
    ensures buffer { out.new ≡ name_buffer (bytes_of name.entry) out.old }
{
    match name {
        Some(name) => write_front(name, out).map(Some),
        None => Ok(None),
    }
}
