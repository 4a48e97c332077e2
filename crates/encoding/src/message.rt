// What all records have in common: one writer and one exact reader, over what a record says of its own fields.
ghost use Rattle.std.specs.Prelude.{◌≡◌, ℕ, ◌^◌, ◌<◌, ◌≤◌, Bool, List, [], ◌∷◌, ◌++◌, length, MatchResult, IfErr, is_ok, nat_le};
ghost use Rattle.encoding.specs.Wire.{Field, encode};
ghost use Rattle.encoding.specs.Laying.{Laid};
ghost use Rattle.encoding.specs.Messages.{Broken, Sound, Took, Unread, Unwritten, Wrote, last_of, Went, Stuck};
ghost use Rattle.encoding.specs.Scanning.{field_of};

use crate::content::{Content, broken};
use crate::output::Output;
use crate::scan::{Piece, scan};
use ciphers::fault::{Fault, Layer, Refusal};

// A record with an encoding. It is written as its fields, and records with equal fields are the same.
pub trait Message: Copy {
    // The fields that a record is written as.
    ghost fields: { Self → List Field };

    // The fields that it may have at all.
    ghost knows: { Field → Bool };

    // That two records mean the same.
    ghost same: { Self → Self → Type 0 };

    // The most bytes that it takes, for buffers too.
    const LARGEST: usize;

    ghost LARGEST: { ℕ };

    fn empty() -> Self
        ensures { fields result ≡ [] };

    // One more field, at its place; a refusal if no record has it there.
    fn add(&mut self, field: u64, content: Content<'_>) -> Result<(), Fault>
        ensures took { Took fields (is_ok result) self.old self.new (field_of field content.entry) }
        ensures fault { IfErr result Broken };

    // How many bytes the encoding takes. It is measured by laying it over no output, unless a record counts.
    fn size(&self) -> usize
        ensures { result ≡ length (encode (fields self.now)) }
    {
        let mut none = [0; 0];
        let mut output = Output {
            out: &mut none,
            at: 0,
        };
        self.put(&mut output);
        output.at
    }

    // Lays the encoding over the output, as far as it reaches.
    fn put(&self, out: &mut Output<'_>)
        ensures { Laid (encode (fields self.now)) out.old out.new };

    // The fields are in order, with numbers from 1 to 15, known, and within the largest size.
    ghost sound: { (r : Self) → Sound knows 1 15 LARGEST (fields r) };

    ghost modest: { LARGEST < 2 ^ 32 };

    ghost told: { (r s : Self) → fields r ≡ fields s → same r s };
}

// How many bytes a record takes.
pub fn encoded_len<R: Message>(record: &R) -> usize
    ensures size { result ≡ length (encode (R.fields «record».now)) }
    ensures bound { result ≤ R.LARGEST }
{
    record.size()
}

// Whether a record fits in so many bytes. Where the largest one does, nothing is measured.
fn fits<R: Message>(record: &R, room: usize) -> bool
    ensures { result ≡ nat_le (length (encode (R.fields «record».now))) room }
{
    if room >= R::LARGEST {
        return true;
    }
    encoded_len(record) <= room
}

// Writes a record at the front of an output, and answers its length; or refuses an output that is too short, and writes
// nothing.
pub fn write<R: Message>(record: &R, out: &mut [u8]) -> Result<usize, Fault>
    ensures { MatchResult result
        (λ n. Wrote (encode (R.fields «record».now)) out.old out.new n)
        (λ f. Unwritten (encode (R.fields «record».now)) out.old out.new f) }
{
    if !fits(record, out.len()) {
        return Err(Fault::new(Refusal::WrongSize, Layer::Encoding));
    }
    let mut output = Output { out, at: 0 };
    record.put(&mut output);
    Ok(output.at)
}

// One more field, from the front of `rest`; or a refusal where no record goes on so. `last` is the number of the field
// before.
fn step<'a, R: Message>(made: &mut R, last: u64, rest: &'a [u8]) -> Result<Piece<'a>, Fault>
    requires { last ≡ last_of 0 (R.fields made.old) }
    ensures { MatchResult result (λ p. Went R.fields made.old made.new rest.now p.size p.number)
        (λ f. Broken f × Stuck R.fields made.old rest.now) }
{
    let piece = scan(rest).ok_or_else(broken)?;
    if piece.number < last {
        return Err(broken());
    }
    made.add(piece.number, piece.content)?;
    Ok(piece)
}

// The record whose encoding the input is. Any other input is refused where it stops being the front of one.
pub fn read<R: Message>(input: &[u8]) -> Result<R, Fault>
    ensures { MatchResult result (λ v. encode (R.fields v) ≡ input.now) (λ f. Unread R.fields input.now f) }
{
    let mut made = R::empty();
    let mut last = 0;
    // A refusal has its place in the input, so the loop goes by places.
    let mut at = 0;
    while at < input.len() {
        let piece = step(&mut made, last, &input[at..]).map_err(|fault| fault.at(at))?;
        last = piece.number;
        at += piece.size;
    }
    Ok(made)
}
