// The texts of a book: its first line, the parts between marks, and decimal numbers.
ghost use Rattle.std.specs.Prelude.{◌≡◌, drop, IfOk};
ghost use Rattle.elf.specs.Names.{bytes_of, only_if, names_of};
ghost use Rattle.format.specs.Lines.{split as split_of, is_number, value, begins, first_line};

use std::alloc::{AllocError, Global};

// The parts of a text between the bytes of one value.
pub fn split<'a>(alloc: Global, text: &'a [u8], mark: u8) -> Result<Vec<&'a [u8]>, AllocError>
    ensures { IfOk result (λ v. names_of v.items ≡ split_of mark text.now) }
{
    let mut parts = Vec::new(alloc);
    let mut start: usize = 0;
    for (i, byte) in text.iter().enumerate() {
        if *byte == mark {
            parts.push(&text[start..i])?;
            start = i + 1;
        }
    }
    parts.push(&text[start..])?;
    Ok(parts)
}

// The value of a decimal number without spare zeros, if it is at most `most`.
pub fn number(most: u16, digits: &[u8]) -> Option<u16>
    ensures { result ≡ only_if (is_number most digits.now) (value 0 digits.now) }
{
    if digits.is_empty() || (digits.len() > 1 && digits[0] == b'0') {
        return None;
    }
    let mut sum: u16 = 0;
    for digit in digits {
        if !digit.is_ascii_digit() {
            return None;
        }
        sum = sum.checked_mul(10)?.checked_add(u16::from(*digit - b'0'))?;
        if sum > most {
            return None;
        }
    }
    Some(sum)
}

// What stands behind the first line of a book, none if that is another line.
pub fn after_first_line<'a>(text: &'a [u8]) -> Option<&'a [u8]>
    ensures { bytes_of result ≡ only_if (begins first_line text.now) (drop 7 text.now) }
{
    let [b'b', b'o', b'o', b'k', b' ', b'1', b'\n', rest @ ..] = text else {
        return None;
    };
    Some(rest)
}
