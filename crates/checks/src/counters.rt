// Counter mode about the last counter, and with too little room.
use ciphers::aes::Aes128;
use ciphers::ctr;
use ciphers::fault::{Fault, Layer, Refusal};

// After 2^128 - 1 comes 0, whose block under this key is the value that RFC 4493, section 4, has for AES-128(key, 0).
// The block before it is Python's.
#[test]
fn wraps(rt: HostRuntime) {
    let aes = Aes128::new(0x2b7e151628aed2a6abf7158809cf4f3cu128.to_be_bytes());
    let mut out = [0u8; 33];
    assert_eq!(rt; ctr::apply(&aes, u128::MAX, &[0; 32], &mut out), Ok(32));
    assert!(rt; out.starts_with(&0x8af2860142f786f409307c1a3f7eaaacu128.to_be_bytes()));
    assert_eq!(rt;
        &out[16..32],
        0x7df76b0c1ab899b33e42f047b91b546fu128
            .to_be_bytes()
            .as_slice()
    );
    assert_eq!(rt; out[32], 0, "past the text");
    let mut short = [0u8; 31];
    let refused = Fault::new(Refusal::WrongSize, Layer::Aead);
    assert_eq!(rt; ctr::apply(&aes, 0, &[0; 32], &mut short), Err(refused));
    assert_eq!(rt; short, [0; 31], "the output was written");
}
