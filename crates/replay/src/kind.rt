// The two banks that a case may have: one manager each, and its primitive as a row of bytes.
use keysets::registry::chip_public::{Chip, ChipPublic};
use keysets::registry::cmac128::{Cmac128, MacKey};
use keysets::registry::key_manager::KeyManager;
use std::alloc::{AllocError, Global};

pub trait Kind: KeyManager + Copy {
    fn manager() -> Self;

    // A primitive as the list writes it.
    fn row(heap: Global, primitive: Self::Primitive) -> Result<Vec<u8>, AllocError>;
}

impl Kind for Cmac128 {
    fn manager() -> Cmac128 {
        Cmac128
    }

    fn row(heap: Global, primitive: MacKey) -> Result<Vec<u8>, AllocError> {
        primitive.bytes.to_vec(heap)
    }
}

impl Kind for ChipPublic {
    fn manager() -> ChipPublic {
        ChipPublic
    }

    fn row(heap: Global, primitive: Chip) -> Result<Vec<u8>, AllocError> {
        let mut row = Vec::new(heap);
        row.push(u8::from(primitive.public))?;
        row.extend_from_slice(&primitive.half)?;
        Ok(row)
    }
}
