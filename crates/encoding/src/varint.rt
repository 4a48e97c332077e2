// Base 128 varints in their shortest form.
ghost use Rattle.std.specs.Prelude.{◌≡◌, ◌≤◌, length};
ghost use Rattle.encoding.specs.Wire.{varint};
ghost use Rattle.encoding.specs.Scanning.{unvarint};

// How many bytes a number takes.
pub(crate) fn varint_len(value: u64) -> usize
    ensures { result ≡ length (varint value) }
{
    match value {
        ..0x80 => 1,
        ..0x4000 => 2,
        ..0x20_0000 => 3,
        ..0x1000_0000 => 4,
        ..0x8_0000_0000 => 5,
        ..0x400_0000_0000 => 6,
        ..0x2_0000_0000_0000 => 7,
        ..0x100_0000_0000_0000 => 8,
        ..0x8000_0000_0000_0000 => 9,
        _ => 10,
    }
}

// The number at the front and how many bytes it takes, of at most `left` before the last.
fn take_digits(bytes: &[u8], left: u8) -> Option<(u64, usize)>
    requires few { left ≤ 9 }
    ensures { result ≡ unvarint left bytes.now }
{
    let (&b, rest) = bytes.split_first()?;
    if b < 128 {
        if left == 0 && b >= 2 {
            return None;
        }
        return Some((b as u64, 1));
    }
    if left == 0 {
        return None;
    }
    let (v, n) = take_digits(rest, left - 1)?;
    if v == 0 {
        return None;
    }
    Some(((b - 128) as u64 + 128 * v, n + 1))
}

pub(crate) fn take_varint(bytes: &[u8]) -> Option<(u64, usize)>
    ensures { result ≡ unvarint 9 bytes.now }
{
    match bytes.first() {
        // Most are one byte.
        Some(&b) if b < 128 => Some((b as u64, 1)),
        _ => take_digits(bytes, 9),
    }
}
