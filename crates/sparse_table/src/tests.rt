//! A table of four pages of places, of which two are written.
use crate::SparseTable;
use sn_base::Memory;

type Table = SparseTable<Option<u16>>;

/// Writes a place, if there is one.
fn write(table: &mut Table, place: usize, value: u16) -> bool {
    if place >= table.len() {
        return false;
    }
    *table.at_mut(place) = Some(value);
    true
}

/// The value of a place. None where there is no place, or it has the usual value.
fn read(table: &Table, place: usize) -> Option<u16> {
    if place < table.len() {
        *table.at(place)
    } else {
        None
    }
}

#[test]
fn a_written_place_changes_no_other(rt: HostRuntime) -> Result<(), Memory> {
    let mut table = SparseTable::new(rt.alloc(), 200)?;
    assert_eq!(rt; read(&table, 199), None);
    assert!(rt; write(&mut table, 199, 9));
    assert!(rt; write(&mut table, 70, 7));
    assert!(rt; write(&mut table, 71, 8));
    assert!(rt; !write(&mut table, 200, 1));
    assert_eq!(rt; read(&table, 199), Some(9));
    assert_eq!(rt; read(&table, 70), Some(7));
    assert_eq!(rt; read(&table, 71), Some(8));
    assert_eq!(rt; read(&table, 72), None);
    assert_eq!(rt; read(&table, 7), None);
    assert_eq!(rt; read(&table, 135), None);
    Ok(())
}
