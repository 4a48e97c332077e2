// Draw sources, drawn to their end and past it.
use ciphers::draws::{CipherWords, Draws, Tape};
use std::process::Abort;
use std::test::Fail;

// Draws `words`, in order, and is then refused twice as 20 D.
fn gives<D: Draws + Drop>(rt: &impl Abort, mut source: D, words: &[u32]) -> Result<(), Fail> {
    for word in words {
        assert_eq!(rt; source.draw()?, *word);
    }
    for _ in 0..2 {
        let Err(fault) = source.draw() else {
            return Err(Fail::new("a word after the last"));
        };
        assert_eq!(rt; (fault.number(), fault.letter()), (20, 'D'));
        assert_eq!(rt; (fault.place, fault.reason), (0, 0));
    }
    Ok(())
}

fn tape_gives(rt: &impl Abort, words: &[u32]) -> Result<(), Fail> {
    gives(rt, Tape::new(words), words)
}

#[test]
fn tape(rt: HostRuntime) -> Result<(), Fail> {
    tape_gives(&rt, &[7, 0, 0xffff_ffff, 7])?;
    tape_gives(&rt, &[])
}

// Under the key of FIPS 197, appendix C.1: the first four bytes of AES of the numbers 0, 1, 2 and 3.
#[test]
fn cipher_words(rt: HostRuntime) -> Result<(), Fail> {
    let key = [0, 1, 2, 3, 4, 5, 6, 7, 8, 9, 10, 11, 12, 13, 14, 15];
    let words = [0xc6a13b37, 0x73461395, 0x49d68753, 0xb9ad2b2e];
    gives(&rt, CipherWords::new(key, 4), &words)?;
    gives(&rt, CipherWords::new(key, 0), &[])
}
