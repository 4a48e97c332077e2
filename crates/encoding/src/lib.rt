// Tink's keyset records and their bytes, as the Protobuf encoding guide writes them: one writer, and one reader that accepts
// exactly what the writer writes. Nothing here allocates, and no public call asks anything of its caller.
#![tactic(auto)]

pub mod bounded;
pub mod claims;
pub mod content;
pub mod makings;
mod member;
pub mod message;
pub mod messages;
pub mod numbers;
pub mod output;
pub mod records;
mod scan;
mod sizes;
pub mod url;
mod varint;
