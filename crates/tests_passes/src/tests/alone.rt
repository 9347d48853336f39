//! Files without symbols, and those that take no part.

use comdat::discard;
use file_live::live;
use lk_tables::{Heads, Tables};
use name_numbers::number_names;
use std::test::Fail;
use work_split::OpenGate;

// Two files without symbols.
#[test]
fn files_without_symbols(rt: HostRuntime) -> Result<(), Fail> {
    let alloc = rt.alloc();
    let mut heads = Heads::empty(alloc);
    heads.add(b"object", None, false)?;
    heads.add(b"archive", None, true)?;
    let names = number_names(&rt, alloc, heads.files(), 2, &OpenGate)?;
    assert!(rt; names.starts.as_slice() == [0, 0, 0].as_slice());
    assert!(rt; names.numbers.is_empty());
    Ok(())
}

// An object of the command and an archive, both without symbols.
#[test]
fn objects_take_part_and_archives_wait(rt: HostRuntime) -> Result<(), Fail> {
    let alloc = rt.alloc();
    let mut heads = Heads::empty(alloc);
    heads.add(b"object", None, false)?;
    heads.add(b"archive", None, true)?;
    let list = live(&rt, alloc, &heads, &[], 2, &OpenGate)?;
    assert!(rt; list.as_slice() == [true, false].as_slice());
    Ok(())
}

// Two files that take no part have no sections.
#[test]
fn files_that_take_no_part_have_no_sections(rt: HostRuntime) -> Result<(), Fail> {
    let alloc = rt.alloc();
    let mut heads = Heads::empty(alloc);
    heads.add(b"archive", None, true)?;
    let mut objects = Vec::new(alloc);
    objects.push(None)?;
    let tables = Tables::of(alloc, heads, objects)?;
    let list = discard(&rt, alloc, &tables, 2, &OpenGate)?;
    assert!(rt; list.is_empty());
    Ok(())
}
