// Why a vector fails.
ghost use Rattle.std.specs.Prelude.{◌≡◌, is_ok};
ghost use Rattle.std.specs.Str.{bytes_eq};

use ciphers::fault::Fault;
use rows::Row;
use std::alloc::{AllocError, Global};
use thiserror::Error;

#[derive(Debug, Drop, Error)]
pub enum Failure {
    // What was computed is not what the standard has.
    #[error("{what} differs\n  expected {}\n  computed {}", Row(.expected), Row(.computed))]
    Differs {
        what: &'static str,
        expected: Vec<u8>,
        computed: Vec<u8>,
    },
    #[error("{0}")]
    Refused(#[from] Fault),
    // A damaged copy opened, was refused otherwise than as one that does not open, or left something in the output.
    #[error("a damaged copy was not refused as 22 A with the output as it was")]
    Accepted,
    #[error("no memory")]
    NoMemory(#[from(alloc)] AllocError),
}

// Holds one row to another: fine exactly where they are the same.
pub fn agree(
    heap: Global,
    what: &'static str,
    expected: &[u8],
    computed: &[u8],
) -> Result<(), Failure>
    ensures { is_ok result ≡ bytes_eq expected.now computed.now }
{
    if expected == computed {
        return Ok(());
    }
    Err(Failure::Differs {
        what,
        expected: expected.to_vec(heap)?,
        computed: computed.to_vec(heap)?,
    })
}
