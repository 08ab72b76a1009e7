use crate::routes::CLOSED_FIRST;
use map_text::{read_map, write_map};
use std::test::Fail;

#[test]
fn a_map_is_written_as_it_was_read(rt: HostRuntime) -> Result<(), Fail> {
    let grid = read_map(rt.alloc(), CLOSED_FIRST.as_bytes())?;
    let text = write_map(rt.alloc(), &grid)?;
    assert_eq!(rt; text.as_slice(), CLOSED_FIRST.as_bytes());
    Ok(())
}
