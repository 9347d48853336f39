//! Rows by number, and the entries of the table of addresses.

use flat_rows::Rows;
use link_sections::{Got, GotUse};
use std::alloc::AllocError;
use std::test::Fail;

/// What threads can share.
fn is_shared<T: Send + Sync>(_shared: &T) {}

/// One symbol has an entry for each of its uses, one of two words among them; what is there already is not added again.
#[test]
fn one_entry_for_each_use(rt: HostRuntime) -> Result<(), Fail> {
    let mut got = Got::empty(rt.alloc());
    got.add(7, GotUse::GeneralDynamic, 1, 2)?;
    got.add(7, GotUse::Address, 1, 2)?;
    got.add(3, GotUse::Address, 1, 5)?;
    got.add(7, GotUse::GeneralDynamic, 4, 9)?;
    assert_eq!(rt; got.entries().len(), 3);
    assert_eq!(rt; got.words(), 4);
    assert!(rt; got.word_of(7, GotUse::GeneralDynamic) == Some(0));
    assert!(rt; got.word_of(7, GotUse::Address) == Some(2));
    assert!(rt; got.word_of(3, GotUse::Address) == Some(3));
    assert!(rt; got.word_of(3, GotUse::ThreadOffset).is_none());
    is_shared(&got);
    Ok(())
}

/// Three rows, the middle one empty, and the same three once more.
#[test]
fn rows_one_after_the_other(rt: HostRuntime) -> Result<(), AllocError> {
    let mut rows: Rows<u32> = Rows::empty(rt.alloc())?;
    rows.push(&[7, 8])?;
    rows.push(&[])?;
    rows.push(&[9])?;
    let mut all: Rows<u32> = Rows::empty(rt.alloc())?;
    all.append(&rows)?;
    all.append(&rows)?;
    assert_eq!(rt; all.count(), 6);
    assert_eq!(rt; all.row(3), &[7, 8][..]);
    assert_eq!(rt; all.row(4).len(), 0);
    assert_eq!(rt; all.row(5), &[9][..]);
    assert_eq!(rt; all.row(6).len(), 0);
    assert_eq!(rt; all.items(), &[7, 8, 9, 7, 8, 9][..]);
    is_shared(&all);
    Ok(())
}
