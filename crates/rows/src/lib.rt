// Rows of bytes in hexadecimal, as the lists of the repository write them: two digits to a byte, in small letters, and `-` for
// the row of no byte.
#![tactic(auto)]

ghost use Rattle.std.specs.Prelude.{◌≡◌, ◌↔◌, Some, IsTrue, OnOk, IsOk, IfOk, IsOkUnless};
ghost use Rattle.std.specs.List.{AllPass};
ghost use Rattle.std.specs.Fmt.{HasWritten, IsPlainFormatter};
ghost use Rattle.hex.specs.Hex.{encode_lower};
ghost use Rattle.rows.specs.Digits.{is_digit, bytes_of, IsRow, row_text};
ghost use Rattle.rows.specs.declared.RowError.TheVariants.{NoMemory};

use std::alloc::Global;
use std::fmt;
use thiserror::Error;

#[derive(Clone, Copy, PartialEq, Eq, Debug, Error)]
pub enum RowError {
    #[error("a row has an odd number of digits")]
    OddLength,
    #[error("a row has something else than the digits 0 to 9 and a to f")]
    OtherCharacter,
    #[error("memory allocation failed")]
    NoMemory,
}

fn is_digit(c: u8) -> bool
    ensures { result ≡ is_digit c }
{
    matches!(c, b'0'..=b'9' | b'a'..=b'f')
}

fn has_digits_alone(text: &str) -> bool
    ensures { IsTrue result ↔ AllPass is_digit text.now }
{
    text.bytes().all(is_digit)
}

// The bytes of a row.
pub fn read(heap: Global, text: &str) -> Result<Vec<u8>, RowError>
    ensures value { IfOk result (λ row. row.items ≡ bytes_of text.now) }
    ensures ok { IsOk result → IsRow text.now }
    ensures memory { IsRow text.now → IsOkUnless result NoMemory }
{
    if text == "-" {
        return Ok(Vec::new(heap));
    }
    if text.len() % 2 != 0 {
        return Err(RowError::OddLength);
    }
    if !has_digits_alone(text) {
        return Err(RowError::OtherCharacter);
    }
    hex::decode(heap, text).map_err(|_| RowError::NoMemory)
}

fn write_digits<W: fmt::Write>(row: &[u8], f: &mut fmt::Formatter<W>) -> fmt::Result
    ensures { IsPlainFormatter f.old → OnOk result (HasWritten W.Write.write_str_gives f.old (encode_lower row.now) f.new) }
{
    for b in row {
        write!(f, "{b:02x}")?;
    }
    Ok(())
}

// A row as it prints.
#[derive(Clone, Copy)]
pub struct Row<'a>(pub &'a [u8]);

impl fmt::Display for Row<'_> {
    ghost output = { λ row. Some (row_text row.0.now) };

    fn fmt<W: fmt::Write>(&self, f: &mut fmt::Formatter<W>) -> fmt::Result {
        match self.0 {
            [] => f.write_str("-"),
            row => write_digits(row, f),
        }
    }
}
