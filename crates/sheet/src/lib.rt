// What the cabinet's program prints of bytes and records: all of it, in order, and nothing else.
#![tactic(auto)]

pub mod keys;

ghost use Rattle.std.specs.Prelude.{◌≡◌, IfOk, string_bytes};
ghost use Rattle.sheet.specs.Hex.{hex_codes, TellsBytes};

use std::alloc::{AllocError, Global};

// The bytes in order, two lower-case hexadecimal digits each.
pub fn hex(heap: Global, bytes: &[u8]) -> Result<String, AllocError>
    ensures { IfOk result (λ text. string_bytes text ≡ hex_codes bytes.now) }
{
    hex::encode(heap, bytes)
}

// Different bytes are shown differently.
pub fn tells_bytes()
    ensures { TellsBytes }
{}
