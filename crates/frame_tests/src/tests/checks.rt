//! What the tests of frames ask of a row.
use std::test::Fail;

/// An error where it doesn't hold of the row at this place.
pub fn check_row(holds: bool, place: usize) -> Result<(), Fail> {
    if holds {
        Ok(())
    } else {
        Err(Fail::new(format_args!("row {place}")))
    }
}

pub fn same(bytes: &[u8], others: &[u8]) -> bool {
    bytes == others
}
