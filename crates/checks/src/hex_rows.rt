// Rows of bytes in hexadecimal, read and refused.
use rows::{RowError, read};
use std::test::Fail;

#[test]
fn rows_are_read(rt: HostRuntime) -> Result<(), Fail> {
    for (text, row) in [("-", &[][..]), ("00", &[0x00]), ("09af", &[0x09, 0xaf])] {
        let bytes = read(rt.alloc(), text)?;
        assert!(rt; bytes.as_slice() == row, "{text}");
    }
    Ok(())
}

#[test]
fn what_is_no_row_is_refused(rt: HostRuntime) {
    assert!(rt; matches!(read(rt.alloc(), "0"), Err(RowError::OddLength)));
    assert!(rt; matches!(read(rt.alloc(), "0A"), Err(RowError::OtherCharacter)));
}
