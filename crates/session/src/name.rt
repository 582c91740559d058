// A name in a fixed table.
ghost use Rattle.std.specs.Prelude.{◌≤◌};

// A name copied from a catalogue; the first `len` bytes count.
#[derive(Clone, Copy)]
pub struct Name {
    pub bytes: [u8; 255],
    pub len: usize,
    ghost within: { len ≤ 255 },
}
