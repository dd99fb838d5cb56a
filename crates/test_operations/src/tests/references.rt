//! Tables of entities: each name has its value, and rows make a table or have their first fault.
use html_escape::{EntityTable, NameIndex, TableFault};
use std::process::Abort;
use std::test::Fail;

#[test]
fn each_name_has_its_value(rt: HostRuntime) {
    let table = EntityTable::built_in();
    for (name, value) in table.rows() {
        assert!(rt; table.get(name) == Some(*value));
    }
    for name in [
        b"".as_slice(),
        b"AElie",
        b"AEli",
        b"copy",
        b"nbsp;",
        b"quou",
        b"zz",
    ] {
        assert!(rt; table.get(name).is_none());
    }
}

// Rows, and their first fault.
type Faulty = (&'static [(&'static [u8], &'static str)], TableFault);

static FAULTS: [Faulty; 8] = [
    (&[(b"", "x")], TableFault::EmptyName(0)),
    (&[(b"a-b", "x")], TableFault::BadName(0)),
    (&[(b"amp", "&"), (b"amp", "&")], TableFault::NotAscending(1)),
    (&[(b"amp", "&"), (b"Amp", "&")], TableFault::NotAscending(1)),
    (&[(b"amp", "x")], TableFault::WrongCommon(0)),
    (&[(b"amp", "&")], TableFault::MissingCommon(1)),
    (&[(b"zz", "x"), (b"", "x")], TableFault::EmptyName(1)),
    (&[], TableFault::MissingCommon(0)),
];

#[test]
fn rows_have_their_first_fault(rt: HostRuntime) {
    for &(rows, fault) in &FAULTS {
        assert!(rt; EntityTable::new(rows).err() == Some(fault));
    }
}

// The rows that every table has.
static COMMON: [(&[u8], &str); 6] = [
    (b"amp", "&"),
    (b"apos", "'"),
    (b"gt", ">"),
    (b"lt", "<"),
    (b"nbsp", "\u{A0}"),
    (b"quot", "\""),
];

// The fault of the common rows with another row in the place of one.
fn fault_with(at: usize, row: (&'static [u8], &'static str)) -> Option<TableFault> {
    let mut rows = COMMON;
    match rows.get_mut(at) {
        Some(place) => *place = row,
        None => return None,
    }
    EntityTable::new(&rows).err()
}

#[test]
fn each_fault_is_found_at_any_row(rt: HostRuntime) {
    assert!(rt; EntityTable::new(&COMMON).is_ok());
    for at in [0usize, 3, 5] {
        assert!(rt; fault_with(at, (b"", "x")) == Some(TableFault::EmptyName(at)));
        assert!(rt; fault_with(at, (b"a-b", "x")) == Some(TableFault::BadName(at)));
        let wrong = Some(TableFault::WrongCommon(at));
        assert!(rt; fault_with(at, (COMMON[at].0, "x")) == wrong);
    }
    for at in [1usize, 3, 5] {
        let unordered = Some(TableFault::NotAscending(at));
        assert!(rt; fault_with(at, COMMON[at - 1]) == unordered);
        assert!(rt; fault_with(at, (b"ZZ", "x")) == unordered);
    }
}

#[test]
fn each_common_name_is_missed(rt: HostRuntime) -> Result<(), Fail> {
    for missing in 0..COMMON.len() {
        let mut rows = COMMON.to_vec(rt.alloc())?;
        rows.remove(missing);
        let fault = EntityTable::new(rows.as_slice()).err();
        assert!(rt; fault == Some(TableFault::MissingCommon(missing)));
    }
    Ok(())
}

#[test]
fn rows_are_found_by_any_index(rt: HostRuntime) {
    let table = EntityTable::of_near(&COMMON);
    assert!(rt; table.get(b"nbsp") == Some("\u{A0}"));
    assert!(rt; table.get(b"copy").is_none() && !table.has_whole_index());
    for index in [NameIndex::none(), NameIndex::of(&[1], &[3])] {
        let table = EntityTable::of_near_indexed(&COMMON, index);
        for (name, value) in &COMMON {
            assert!(rt; table.get(name) == Some(*value));
        }
        assert!(rt; !table.has_whole_index());
    }
}
