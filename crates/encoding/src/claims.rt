// What holds of the encoding as a whole, each on the contract of a call.
ghost use Rattle.std.specs.Prelude.{◌≡◌, length, MatchResult};
ghost use Rattle.encoding.specs.Wire.{encode};
ghost use Rattle.encoding.specs.Messages.{Unwritten, Wrote};
ghost use Rattle.encoding.specs.Claims.{EveryRecord, EmptyKeyset, OneDestroyedKey, UrlsByBytes};
ghost use Rattle.encoding.specs.Limits.{EveryLimit};

use crate::message::{Message, read, write};
use ciphers::fault::Fault;

// Reading undoes writing: writes a record and reads it back. It is the same record again, and the one refusal is the
// writer's, of an output that is too short.
pub fn write_and_read<R: Message>(record: &R, out: &mut [u8]) -> Result<R, Fault>
    ensures back { MatchResult result (λ v. R.same v «record».now)
        (λ f. Unwritten (encode (R.fields «record».now)) out.old out.new f) }
    ensures written { MatchResult result
        (λ v. Wrote (encode (R.fields «record».now)) out.old out.new (length (encode (R.fields «record».now))))
        (λ _. Unit {0}) }
{
    let n = write(record, out)?;
    read(&out[0..n])
}

// Records of each of the seven kinds are told apart by their bytes.
pub fn records_are_told_apart() -> bool
    ensures { EveryRecord }
{
    true
}

// Two keysets, byte for byte.
pub fn small_keysets() -> bool
    ensures { (EmptyKeyset) × (OneDestroyedKey) }
{
    true
}

// What a record can hold is what the limits allow: no more, and no less.
pub fn limits_are_exact() -> bool
    ensures { EveryLimit }
{
    true
}

// `==` of type URLs, which compares their bytes, says yes exactly for equal ones.
pub fn urls_are_compared_by_bytes() -> bool
    ensures { UrlsByBytes }
{
    true
}
