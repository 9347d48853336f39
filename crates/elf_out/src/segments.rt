//! What stands at the start of the file: the file header, and the program headers of the segments.

ghost use Rattle.std.specs.Prelude.{◌≡◌, ◌≤◌, ◌++◌, ◌∷◌, [], if◌then◌else◌, flat_map, length, IfOk, OnOk};
ghost use Rattle.elf_fields.specs.Headers.{program_header};
ghost use Rattle.link_sections.specs.Views.{binding_in, files_in, laid_in, leaders_in};
ghost use Rattle.elf_out.specs.Executable as spec;
ghost use Rattle.elf_out.specs.Prepared.{headers_in};
ghost use Rattle.elf_out.specs.TablesView.{tables_if, tables_in};
ghost use Rattle.elf_out.specs.Headers.{frame_segment, loaded, program_headers, segments, tls_segment};

use crate::ends::{ends_of, table_count};
use crate::flags::kept_flags;
use crate::header_bytes::{offset_of, push_executable_header};
use crate::symbols::SymbolTables;
use elf_fields::{ProgramHeader, push_program_header};
use link_sections::{Bounds, View, entry_address};
use lk_base::abi::{
    IMAGE_BASE, PAGE, PF_R, PF_W, PF_X, PT_GNU_EH_FRAME, PT_GNU_STACK, PT_LOAD, PT_TLS,
};
use std::alloc::{AllocError, Global};

/// The stack is read and written.
const STACK: ProgramHeader = ProgramHeader {
    p_type: PT_GNU_STACK,
    p_flags: PF_R + PF_W,
    p_offset: 0,
    p_vaddr: 0,
    p_filesz: 0,
    p_memsz: 0,
    p_align: 16,
};

/// A segment from one address to another, of which `bits` ends what the file has.
fn loaded(flags: u32, start: u64, bits: u64, end: u64) -> ProgramHeader
    ensures { result ≡ loaded flags start bits end }
{
    ProgramHeader {
        p_type: PT_LOAD,
        p_flags: flags,
        p_offset: offset_of(start),
        p_vaddr: start,
        p_filesz: bits.saturating_sub(start),
        p_memsz: end.saturating_sub(start),
        p_align: PAGE,
    }
}

/// The bytes of the file that each thread's storage starts with: none without a member that has bits.
fn tls_file_size(bounds: &Bounds) -> u64
    ensures { result ≡ (tls_segment bounds.now).p_filesz }
{
    if !bounds.has_tls_bits {
        return 0;
    }
    bounds.tls_bits_end.saturating_sub(bounds.tls_start)
}

/// The segment of thread-local storage.
fn thread_local(bounds: &Bounds) -> ProgramHeader
    ensures { result ≡ tls_segment bounds.now }
{
    ProgramHeader {
        p_type: PT_TLS,
        p_flags: PF_R,
        p_offset: offset_of(bounds.tls_start),
        p_vaddr: bounds.tls_start,
        p_filesz: tls_file_size(bounds),
        p_memsz: bounds.tls_end.saturating_sub(bounds.tls_start),
        p_align: bounds.tls_align,
    }
}

/// The segment of the table by which unwind records are found.
fn frame_table(bounds: &Bounds) -> ProgramHeader
    ensures { result ≡ frame_segment bounds.now }
{
    let size = bounds.frame_header_end.saturating_sub(bounds.frame_header);
    ProgramHeader {
        p_type: PT_GNU_EH_FRAME,
        p_flags: PF_R,
        p_offset: offset_of(bounds.frame_header),
        p_vaddr: bounds.frame_header,
        p_filesz: size,
        p_memsz: size,
        p_align: 4,
    }
}

/// Adds the program header of a segment, if there is one.
fn push_if(out: &mut Vec<u8>, is_there: bool, header: &ProgramHeader) -> Result<(), AllocError>
    ensures { OnOk result (out.new.items ≡ out.old.items ++ flat_map program_header (if is_there then header.now ∷ [] else [])) }
{
    if !is_there {
        return Ok(());
    }
    push_program_header(out, header)
}

/// Adds the program headers: of what is only read, with the headers, of what is executed, of what is written, of thread-local
/// storage, of the table of unwind records, and of the stack.
fn push_program_headers(out: &mut Vec<u8>, bounds: &Bounds) -> Result<(), AllocError>
    ensures { OnOk result (out.new.items ≡ out.old.items ++ program_headers bounds.now) }
{
    let first = loaded(PF_R, IMAGE_BASE, bounds.r_end, bounds.r_end);
    let executed = loaded(PF_R + PF_X, bounds.rx_start, bounds.rx_end, bounds.rx_end);
    let written = loaded(
        PF_R + PF_W,
        bounds.rw_start,
        bounds.bits_end,
        bounds.nobits_end,
    );
    push_program_header(out, &first)?;
    push_if(out, bounds.has_rx, &executed)?;
    push_if(out, bounds.has_rw, &written)?;
    push_if(out, bounds.has_tls, &thread_local(bounds))?;
    push_if(out, bounds.has_frames, &frame_table(bounds))?;
    push_program_header(out, &STACK)?;
    Ok(())
}

/// 1 for a segment that is there.
fn one_if(is_there: bool) -> u16
    ensures { result ≡ (if is_there then 1 else 0) }
{
    if is_there {
        return 1;
    }
    0
}

/// How many program headers there are: that of what is only read and that of the stack always.
pub fn segment_count(bounds: &Bounds) -> u16
    ensures value { result ≡ length (segments bounds.now) }
    ensures most { result ≤ 6 }
{
    2 + one_if(bounds.has_rx)
        + one_if(bounds.has_rw)
        + one_if(bounds.has_tls)
        + one_if(bounds.has_frames)
}

/// How many section headers there are with these tables at the file's end.
fn section_count(view: &View, tables: &Option<SymbolTables>) -> u16
    ensures value { result ≡ spec.header_count (laid_in view.now) (tables_if tables.now) }
    ensures some { 1 ≤ result }
{
    let outputs = view.layout.outputs.len() as u16;
    outputs + table_count(tables) as u16 + 2
}

/// The bytes from the file's start to the end of the program headers, with these tables at the file's end, if the section headers stand at
/// `table`.
pub fn headers_before(
    alloc: Global,
    view: &View,
    tables: &Option<SymbolTables>,
    table: u64,
) -> Result<Vec<u8>, AllocError>
    requires { table ≡ spec.table_offset (laid_in view.now) (tables_if tables.now) }
    ensures { IfOk result (λ v. v.items ≡ headers_in view.now (tables_if tables.now)) }
{
    let bounds = &view.layout.bounds;
    let mut out = Vec::new(alloc);
    push_executable_header(
        &mut out,
        entry_address(view),
        table,
        kept_flags(view.tables),
        segment_count(bounds),
        section_count(view, tables),
    )?;
    push_program_headers(&mut out, bounds)?;
    Ok(out)
}

/// The file header and the program headers of an executable with these tables, which are its own, at its end: the bytes from offset 0 to the
/// end of the program headers (System V gABI, "ELF Header", "Program Header"). The only error is out of memory.
#[tactic(auto, unfolding(crate::specs::Executable::headers))]
pub fn headers(
    alloc: Global,
    view: &View,
    tables: &Option<SymbolTables>,
) -> Result<Vec<u8>, AllocError>
    requires { tables_if tables.now ≡ tables_in view.now }
    ensures { IfOk result (λ v. v.items ≡ spec.headers (files_in view.now) (binding_in view.now) view.now.kept.now view.now.strip (leaders_in view.now) (laid_in view.now)) }
{
    let ends = ends_of(view, tables)?;
    let bytes = headers_before(alloc, view, tables, ends.table_at)?;
    Ok(bytes)
}
