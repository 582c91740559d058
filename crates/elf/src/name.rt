// Names of objects, symbols and versions.
ghost use Rattle.std.specs.Prelude.{◌≡◌};
ghost use Rattle.elf.specs.Names.{lawful};

// Whether a name has 1 to 255 bytes, each printable and no space.
pub fn is_lawful(name: &[u8]) -> bool
    ensures { result ≡ lawful name.now }
{
    matches!(name.len(), 1..=255) && name.iter().all(|byte| matches!(*byte, 0x21..=0x7E))
}
