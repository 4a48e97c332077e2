// What both Aeads take, refuse and leave in the output; SIV's values; the plain cover's own test.
use ciphers::aead::Aead;
use ciphers::cover::PlainCover;
use ciphers::fault::{Fault, Layer, Refusal};
use ciphers::siv::Siv;
use std::alloc::{AllocError, Global};
use std::process::Abort;
use std::test::Fail;

// What every output holds before a call.
const BLANK: u8 = 0xee;

// What a call answered, and what its output holds then.
#[derive(Drop)]
struct Answered {
    answer: Result<usize, Fault>,
    out: Vec<u8>,
}

// The key of RFC 5297, appendix A.1.
fn siv() -> Siv {
    let mut key = [0u8; 32];
    key[..16].copy_from_slice(&0xfffefdfcfbfaf9f8f7f6f5f4f3f2f1f0u128.to_be_bytes());
    key[16..].copy_from_slice(&0xf0f1f2f3f4f5f6f7f8f9fafbfcfdfeffu128.to_be_bytes());
    Siv::new(key)
}

// The bytes 0, 1, 2, .., n of them, from 0 again after 255.
fn counted(heap: Global, n: usize) -> Result<Vec<u8>, AllocError> {
    (0..n).map(|i| (i % 256) as u8).collect(heap)
}

// Seals counted bytes under a counted text.
fn seal<A: Aead>(
    heap: Global,
    aead: &A,
    plain: usize,
    text: usize,
    room: usize,
) -> Result<Answered, AllocError> {
    let mut out = vec![in heap; BLANK; room]?;
    let answer = aead.encrypt(&counted(heap, plain)?, &counted(heap, text)?, &mut out);
    Ok(Answered { answer, out })
}

// Opens under a counted text.
fn open<A: Aead>(
    heap: Global,
    aead: &A,
    ciphertext: &[u8],
    text: usize,
    room: usize,
) -> Result<Answered, AllocError> {
    let mut out = vec![in heap; BLANK; room]?;
    let answer = aead.decrypt(ciphertext, &counted(heap, text)?, &mut out);
    Ok(Answered { answer, out })
}

// Refused for this, and nothing was written.
fn check_refused(rt: &impl Abort, got: Answered, refusal: Refusal) {
    assert_eq!(rt; got.answer, Err(Fault::new(refusal, Layer::Aead)));
    assert!(rt;
        got.out.iter().all(|b| *b == BLANK),
        "the output was written"
    );
}

// Answered n, wrote counted bytes as a plaintext, and kept the rest of the output.
fn check_opened(rt: &impl Abort, got: Answered, n: usize) {
    assert_eq!(rt; got.answer, Ok(n));
    for (i, b) in got.out.iter().enumerate() {
        let expected = if i < n { (i % 256) as u8 } else { BLANK };
        assert_eq!(rt; *b, expected);
    }
}

// Encrypt takes 4,096 bytes under a text of 256 into an output that is just long enough, and one more or less of each
// is refused as 26 A. Past what it answers, the output keeps its bytes.
fn limits<A: Aead>(rt: &impl Abort, heap: Global, aead: &A, overhead: u8) -> Result<(), Fail> {
    let full = 4096 + usize::from(overhead);
    let most = seal(heap, aead, 4096, 256, full)?;
    assert_eq!(rt; most.answer, Ok(full));
    check_opened(rt, open(heap, aead, &most.out, 256, 4096)?, 4096);
    check_refused(
        rt,
        seal(heap, aead, 4097, 256, full + 1)?,
        Refusal::WrongSize,
    );
    check_refused(rt, seal(heap, aead, 4096, 257, full)?, Refusal::WrongSize);
    check_refused(
        rt,
        seal(heap, aead, 4096, 256, full - 1)?,
        Refusal::WrongSize,
    );
    let roomy = seal(heap, aead, 4096, 256, full + 3)?;
    assert_eq!(rt; roomy.answer, Ok(full));
    assert!(rt; roomy.out.ends_with(&[BLANK; 3]));
    Ok(())
}

#[test]
fn siv_limits(rt: HostRuntime) -> Result<(), Fail> {
    limits(&rt, rt.alloc(), &siv(), 16)
}

#[test]
fn cover_limits(rt: HostRuntime) -> Result<(), Fail> {
    limits(&rt, rt.alloc(), &PlainCover, 4)
}

// Decrypt tells first whether the ciphertext opens (22 A), and then whether the plaintext has room (26 A).
fn order<A: Aead>(rt: &impl Abort, heap: Global, aead: &A, overhead: u8) -> Result<(), Fail> {
    let sealed = seal(heap, aead, 20, 3, 20 + usize::from(overhead))?.out;
    check_opened(rt, open(heap, aead, &sealed, 3, 20)?, 20);
    check_opened(rt, open(heap, aead, &sealed, 3, 23)?, 20);
    check_refused(rt, open(heap, aead, &sealed, 3, 19)?, Refusal::WrongSize);
    check_refused(rt, open(heap, aead, &sealed, 4, 20)?, Refusal::DoesNotOpen);
    check_refused(rt, open(heap, aead, &sealed, 4, 19)?, Refusal::DoesNotOpen);
    Ok(())
}

// And nothing of less than 16 bytes opens.
#[test]
fn siv_order(rt: HostRuntime) -> Result<(), Fail> {
    let heap = rt.alloc();
    order(&rt, heap, &siv(), 16)?;
    check_refused(&rt, open(heap, &siv(), &[], 0, 8)?, Refusal::DoesNotOpen);
    check_refused(
        &rt,
        open(heap, &siv(), &[0; 15], 0, 8)?,
        Refusal::DoesNotOpen,
    );
    Ok(())
}

#[test]
fn cover_order(rt: HostRuntime) -> Result<(), Fail> {
    order(&rt, rt.alloc(), &PlainCover, 4)
}

// Lengths about the ends of blocks, under an empty text, which is a component all the same. The synthetic IVs are
// Python's, of the components [empty, plaintext].
#[test]
fn siv_lengths(rt: HostRuntime) -> Result<(), Fail> {
    let heap = rt.alloc();
    let table = [
        (0usize, 0x499e3994710218de7582e0f2c0ab5ed0u128),
        (15, 0x5deca7f48627cb1c7f482a7535f5bc8e),
        (16, 0xb6dc1145848b777115a484791b2c88b9),
        (17, 0xa3ba2d5f6c46b8f6656209ad61358622),
        (31, 0x92708911e6ac58c3b6b102331cffe8ed),
        (32, 0xc5a31230fe38c38ad67af5b30250a4bd),
        (33, 0xbec9e3adc85c8565dd84f600dc93f6b2),
    ];
    for (n, iv) in &table {
        let sealed = seal(heap, &siv(), *n, 0, 64)?;
        let mut ciphertext = sealed.out;
        ciphertext.truncate(sealed.answer?);
        assert!(rt; ciphertext.starts_with(&iv.to_be_bytes()), "{}", n);
        check_opened(&rt, open(heap, &siv(), &ciphertext, 0, *n)?, *n);
        check_refused(
            &rt,
            open(heap, &siv(), &ciphertext, 1, *n)?,
            Refusal::DoesNotOpen,
        );
    }
    Ok(())
}

// The cover's four bytes are the length of the text, all four of them, and any text of that length opens it.
#[test]
fn cover_length(rt: HostRuntime) -> Result<(), Fail> {
    let heap = rt.alloc();
    let sealed = seal(heap, &PlainCover, 2, 256, 6)?;
    assert_eq!(rt; sealed.out.as_slice(), [0u8, 0, 1, 0, 0, 1].as_slice());
    check_opened(
        &rt,
        open(heap, &PlainCover, &[0, 0, 0, 3, 0, 1, 2], 3, 3)?,
        3,
    );
    check_opened(&rt, open(heap, &PlainCover, &[0, 0, 0, 0], 0, 1)?, 0);
    check_refused(
        &rt,
        open(heap, &PlainCover, &[0, 0, 0, 3, 0], 2, 1)?,
        Refusal::DoesNotOpen,
    );
    check_refused(
        &rt,
        open(heap, &PlainCover, &[1, 0, 0, 3, 0], 3, 1)?,
        Refusal::DoesNotOpen,
    );
    check_refused(
        &rt,
        open(heap, &PlainCover, &[0, 0, 0], 0, 1)?,
        Refusal::DoesNotOpen,
    );
    Ok(())
}
