// SIV over AES-128 (RFC 5297), with a key of 32 bytes and one component of associated data.
use crate::aes::Aes128;
use crate::cmac::Cmac;

mod aead;
mod s2v;
mod sealing;
mod unmask;

// A key made ready: its first half for S2V, its second for the counter mode.
#[derive(Clone, Copy)]
pub struct Siv {
    mac: Cmac,
    ctr: Aes128,
}
