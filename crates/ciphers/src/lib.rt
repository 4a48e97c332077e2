// The lowest of the four libraries: faults, draw sources, AES-128, CMAC, SIV and the Aead interface.
// Nothing here allocates, and no public call asks anything of its caller.
#![tactic(auto)]

pub mod aead;
pub mod aes;
mod blocks;
pub mod cmac;
pub mod cover;
pub mod ctr;
pub mod draws;
pub mod fault;
pub mod siv;
