// Blocks of 16 bytes: sums, numbers, doubling, and blocks out of slices.
ghost use Rattle.std.specs.Prelude.{◌≡◌, ◌+◌, ◌<◌, ◌≤◌, [], ◌∷◌, ◌++◌, length, take};
ghost use Rattle.ciphers.specs.Bytes.{xors, number, bytes};
ghost use Rattle.ciphers.specs.Rfc4493.{shifted, dbl, padded};

// The number that a block stands for, its first byte the highest.
pub(crate) fn number_of(block: [u8; 16]) -> u128
    ensures { result ≡ number block }
{
    u128::from_be_bytes(block)
}

pub(crate) fn block_of(n: u128) -> [u8; 16]
    ensures { result ≡ bytes 16 n }
{
    n.to_be_bytes()
}

// The exclusive or of two blocks.
pub(crate) fn xor(a: [u8; 16], b: [u8; 16]) -> [u8; 16]
    ensures { result ≡ xors a b }
{
    block_of(number_of(a) ^ number_of(b))
}

fn shift(n: u128) -> u128
    ensures { result ≡ shifted n }
{
    if n < 0x8000_0000_0000_0000_0000_0000_0000_0000 {
        n << 1
    } else {
        (n << 1) ^ 0x87
    }
}

// The product with x in the field of 2^128 elements.
pub(crate) fn double(block: [u8; 16]) -> [u8; 16]
    ensures { result ≡ dbl block }
{
    block_of(shift(number_of(block)))
}

// Less than a block, a bit 1, and zeros.
pub(crate) fn pad(rest: &[u8]) -> [u8; 16]
    requires { length rest.now < 16 }
    ensures { result ≡ padded rest.now }
{
    let n = rest.len();
    let mut block = [0u8; 16];
    block[..n].copy_from_slice(rest);
    block[n] = 0x80;
    block
}

// The first 16 bytes of a slice.
pub(crate) fn front(s: &[u8]) -> [u8; 16]
    requires { 16 ≤ length s.now }
    ensures { result ≡ take 16 s.now }
{
    *s.first_chunk().unwrap()
}
