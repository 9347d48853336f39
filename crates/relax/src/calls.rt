//! The calls that may be relaxed.

ghost use Rattle.std.specs.Prelude.{◌≡◌, ◌==◌, ◌+◌, ◌<◌, ◌^◌, ◌++◌, ◌∷◌, [], length, map, slice_index, true, All, IfOk, OnOk, if◌then◌else◌};
ghost use Rattle.std.proofs.Props.{props};
ghost use Rattle.std.specs.List.{list_any, range_with_len};
ghost use Rattle.std.specs.List.Sorted.{IsNonDecreasing};
ghost use Rattle.lk_base.specs.declared.abi.TheConstants.{R_RISCV_RELAX};
ghost use Rattle.lk_tables.specs.BindingView.{binding_view};
ghost use Rattle.lk_tables.specs.Files.{section_total};
ghost use Rattle.lk_tables.specs.FileView.{file_view};
ghost use Rattle.lk_tables.specs.Sites.{place_of, relocs_of};
ghost use Rattle.lk_tables.specs.TablesView.{files_of};
ghost use Rattle.link_sections.specs.Leaders.{leader_at};
ghost use Rattle.link_sections.specs.PieceTargets.{target_at};
ghost use Rattle.link_sections.specs.PoolViews.{merged_views};
ghost use Rattle.relax.specs.CallSizes as spec;
ghost use Rattle.output_sections.specs.Order.{is_section, own_section};
ghost use Rattle.relax.specs.Placing.{noted};

use link_sections::{Content, Pools, Target};
use lk_base::abi::{EF_RISCV_RVC, R_RISCV_CALL, R_RISCV_CALL_PLT, R_RISCV_NONE, R_RISCV_RELAX};
use lk_base::{FileNo, SecNo};
use lk_tables::{Binding, File, Reloc, Tables, spot_in};
use output_sections::Row;
use std::alloc::{AllocError, Global};

/// A call that may be relaxed.
#[derive(Clone, Copy, Debug, PartialEq, Eq)]
pub struct Call {
    /// The place of its section among the members.
    pub from: usize,
    /// Its offset in the section, in bytes.
    pub offset: u64,
    /// Its relocation's number in the section.
    pub reloc: usize,
    /// The place of its target's section among the members.
    pub to: usize,
    /// The target's offset in that section, in bytes.
    pub target: u64,
    /// The least size that it may have: 2 or 4 bytes.
    pub least: u8,
}

/// The tables in which calls are found.
#[derive(Clone, Copy)]
pub struct Scene<'t, 'a> {
    pub tables: &'t Tables<'a>,
    pub binding: &'t Binding,
    pub pools: &'t Pools,
    /// By section number.
    pub leaders: &'t [Option<SecNo>],
    pub members: &'t [Row],
    /// By section number its place among the members, or how many these are.
    pub places: &'t [usize],

    ghost within: { All (λ m. is_section m ≡ true → own_section m < section_total (files_of tables.now)) members.now } by { Prim.hlevel props },
    ghost placed: { places.now ≡ map (spec.place_in members.now) (range_with_len 0 (section_total (files_of tables.now))) } by { Prim.hlevel props },
}

/// A section in which calls are found.
#[derive(Clone, Copy)]
struct Code<'t, 'a> {
    tables: &'t Tables<'a>,
    section: SecNo,
    /// Its file, by number too.
    number: FileNo,
    file: &'t File<'a>,
    /// Its relocations, in stable order of offset.
    relocs: &'t [Reloc],
    /// Where its bytes begin in the file.
    start: u64,

    ghost within: { number < length (files_of tables.now) } by { Prim.hlevel props },
    ghost numbered: { number ≡ (place_of (files_of tables.now) section).file } by { Prim.hlevel props },
    ghost found: { file_view file.now ≡ spec.file_of (files_of tables.now) section } by { Prim.hlevel props },
    ghost listed: { relocs.now ≡ relocs_of (files_of tables.now) section } by { Prim.hlevel props },
    ghost placed: { start ≡ spec.bytes_from (files_of tables.now) section } by { Prim.hlevel props },
}

/// The place of each section among the members, by number; those that are none have the number of members.
pub fn places_of(alloc: Global, members: &[Row], count: usize) -> Result<Vec<usize>, AllocError>
    ensures { IfOk result (λ places. places.items ≡ map (spec.place_in members.now) (range_with_len 0 count)) }
{
    let mut places = vec![in alloc; members.len(); count]?;
    for i in 0..members.len() {
        note_place(&mut places, &members[i], i);
    }
    Ok(places)
}

/// Notes the place of a member that is a section, if none before it is noted.
#[tactic(auto, unfolding(crate::specs::Placing::noted))]
fn note_place(places: &mut Vec<usize>, member: &Row, place: usize)
    ensures { places.new.items ≡ noted places.old.items member.now place }
{
    let Content::Section(section) = member.content else {
        return;
    };
    let section = section as usize;
    if section < places.len() && place < places[section] {
        places[section] = place;
    }
}

/// Whether the linker may relax what stands at an offset.
fn has_hint(hints: &[u64], offset: u64) -> bool
    requires { IsNonDecreasing hints.now }
    ensures { result ≡ list_any (λ hint. hint == offset) hints.now }
{
    let n = hints.partition_point(|hint| *hint < offset);
    match hints.get(n) {
        Some(hint) => *hint == offset,
        None => false,
    }
}

/// Lists the offsets at which the linker may relax, in the place of what stood in the list.
fn note_hints(hints: &mut Vec<u64>, relocs: &[Reloc]) -> Result<(), AllocError>
    ensures { OnOk result (hints.new.items ≡ spec.hint_offsets relocs.now) }
{
    hints.clear();
    for reloc in relocs {
        push_hint(hints, reloc)?;
    }
    Ok(())
}

/// Adds the offset of a relocation, if the linker may relax there.
fn push_hint(hints: &mut Vec<u64>, reloc: &Reloc) -> Result<(), AllocError>
    ensures { OnOk result (hints.new.items ≡ hints.old.items ++ (if reloc.now.kind == R_RISCV_RELAX then reloc.now.offset ∷ [] else [])) }
{
    if reloc.kind == R_RISCV_RELAX {
        hints.push(reloc.offset)?;
    }
    Ok(())
}

/// A byte of a file; 0 past its end.
fn byte_at(bytes: &[u8], at: u128) -> u8
    ensures { result ≡ slice_index bytes.now at }
{
    if at >= bytes.len() as u128 {
        return 0;
    }
    bytes[at as usize]
}

/// Whether `auipc` and `jalr` stand at a place of a file.
#[tactic(auto, unfolding(crate::specs::CallSizes::has_words))]
fn has_words(bytes: &[u8], at: u128) -> bool
    requires { at < 2 ^ 100 }
    ensures { result ≡ spec.has_words bytes.now at }
{
    byte_at(bytes, at) % 128 == 0x17 && byte_at(bytes, at + 4) % 128 == 0x67
}

/// The least size that a call at a place of a file may have.
#[tactic(auto, unfolding(crate::specs::CallSizes::least_of))]
fn least_of(file: &File, at: u128) -> u8
    requires { at < 2 ^ 100 }
    ensures { result ≡ spec.least_of (file_view file.now) at }
{
    if has_rvc(file) && rd_at(file.bytes(), at + 4) == 0 {
        return 2;
    }
    4
}

/// Whether a file has compressed instructions.
fn has_rvc(file: &File) -> bool
    ensures { result ≡ spec.has_rvc (file_view file.now) }
{
    file.flags() & EF_RISCV_RVC != 0
}

/// The register that an instruction writes.
fn rd_at(bytes: &[u8], at: u128) -> u32
    requires { at < 2 ^ 101 }
    ensures { result ≡ spec.rd_at bytes.now at }
{
    byte_at(bytes, at) as u32 / 128 + 2 * (byte_at(bytes, at + 1) as u32 % 16)
}

/// Whether a relocation is a call without an addend, at an even offset.
#[tactic(auto, unfolding(crate::specs::CallSizes::is_plain, link_sections::specs::Calls::is_call))]
fn is_plain(reloc: &Reloc) -> bool
    ensures { result ≡ spec.is_plain reloc.now }
{
    (reloc.kind == R_RISCV_CALL || reloc.kind == R_RISCV_CALL_PLT)
        && (reloc.addend == 0 && reloc.offset % 2 == 0)
}

/// Whether a call of a member may be shortened that goes to an offset of another.
#[tactic(auto, unfolding(crate::specs::CallSizes::is_near))]
fn is_near(members: &[Row], from: usize, to: usize, offset: u64) -> bool
    requires { from < length members.now }
    ensures { result ≡ spec.is_near members.now from to offset }
{
    to < members.len()
        && (members[from].group == members[to].group
            && (members[from].align >= 2 && (members[to].align >= 2 && offset % 2 == 0)))
}

/// Adds a call whose target is an offset of a section of this leader, if that one is near.
#[tactic(auto, unfolding(crate::specs::CallSizes::lands))]
fn push_landing(
    calls: &mut Vec<Call>,
    scene: &Scene,
    call: Call,
    leader: Option<SecNo>,
    offset: u64,
) -> Result<(), AllocError>
    requires { call.from < length scene.now.members.now }
    ensures { OnOk result (calls.new.items ≡ calls.old.items ++ spec.lands scene.now.members.now call leader offset) }
{
    let Some(leader) = leader else {
        return Ok(());
    };
    let place = place_of(scene, leader);
    if !is_near(scene.members, call.from, place, offset) {
        return Ok(());
    }
    calls.push(Call {
        from: call.from,
        offset: call.offset,
        reloc: call.reloc,
        to: place,
        target: offset,
        least: call.least,
    })?;
    Ok(())
}

/// The place of a section among the members, or how many these are.
pub fn place_of(scene: &Scene, section: SecNo) -> usize
    ensures { result ≡ spec.place_in scene.now.members.now section }
{
    match scene.places.get(section as usize) {
        Some(place) => *place,
        None => scene.members.len(),
    }
}

/// Adds a call to a target, if that is near.
#[tactic(auto, unfolding(crate::specs::CallSizes::reaches))]
fn push_target(
    calls: &mut Vec<Call>,
    scene: &Scene,
    call: Call,
    target: Target,
) -> Result<(), AllocError>
    requires { call.from < length scene.now.members.now }
    ensures { OnOk result (calls.new.items ≡ calls.old.items ++ spec.reaches scene.now.leaders.now scene.now.members.now call target) }
{
    match target {
        Target::Section {
            section,
            offset,
            ..
        } => push_landing(
            calls,
            scene,
            call,
            leader_at(scene.leaders, section),
            offset,
        ),
        _ => Ok(()),
    }
}

/// The leader of a section.
fn leader_at(leaders: &[Option<SecNo>], section: SecNo) -> Option<SecNo>
    ensures { result ≡ leader_at leaders.now section }
{
    match leaders.get(section as usize) {
        Some(leader) => *leader,
        None => None,
    }
}

/// Adds the call that a relocation of a section is, if it may be relaxed.
#[tactic(auto, unfolding(crate::specs::CallSizes::call_at))]
fn push_call(
    calls: &mut Vec<Call>,
    scene: &Scene,
    code: &Code,
    hints: &[u64],
    from: usize,
    k: usize,
) -> Result<(), AllocError>
    requires same { files_of code.now.tables.now ≡ files_of scene.now.tables.now }
    requires from { from < length scene.now.members.now }
    requires section { code.now.section < section_total (files_of code.now.tables.now) }
    requires hints { hints.now ≡ spec.hint_offsets code.now.relocs.now }
    ensures { OnOk result (calls.new.items ≡ calls.old.items ++ spec.call_at (files_of code.now.tables.now) (binding_view scene.now.binding.now) (merged_views scene.now.pools.now) scene.now.leaders.now scene.now.members.now from code.now.section k) }
{
    if !is_candidate(code, hints, k) {
        return Ok(());
    }
    let call = call_of(code, from, k);
    let target = target_at(code, scene.binding, scene.pools, k);
    push_target(calls, scene, call, target)
}

/// What a relocation of a section stands for.
fn target_at(code: &Code, binding: &Binding, pools: &Pools, k: usize) -> Target
    ensures { result ≡ target_at (files_of code.now.tables.now) (binding_view binding.now) (merged_views pools.now) code.now.section k }
{
    pools.piece_target(spot_in(code.tables, binding, code.number, &reloc_at(code, k)))
}

/// Whether a relocation of a section is a call that may be relaxed for what stands at its place.
#[tactic(auto, unfolding(crate::specs::CallSizes::is_candidate))]
fn is_candidate(code: &Code, hints: &[u64], k: usize) -> bool
    requires section { code.now.section < section_total (files_of code.now.tables.now) }
    requires hints { hints.now ≡ spec.hint_offsets code.now.relocs.now }
    ensures { result ≡ spec.is_candidate (files_of code.now.tables.now) code.now.section k }
{
    let reloc = reloc_at(code, k);
    let at = place_at(code, reloc.offset);
    is_plain(&reloc) && (has_words(bytes_of(code), at) && hinted(code, hints, reloc.offset))
}

/// Whether the linker may relax what stands at an offset of a section.
fn hinted(code: &Code, hints: &[u64], offset: u64) -> bool
    requires section { code.now.section < section_total (files_of code.now.tables.now) }
    requires hints { hints.now ≡ spec.hint_offsets code.now.relocs.now }
    ensures { result ≡ spec.has_hint (relocs_of (files_of code.now.tables.now) code.now.section) offset }
{
    has_hint(hints, offset)
}

/// A relocation of a section, in stable order of offset.
fn reloc_at(code: &Code, k: usize) -> Reloc
    ensures { result ≡ spec.reloc_of (files_of code.now.tables.now) code.now.section k }
{
    match code.relocs.get(k) {
        Some(reloc) => *reloc,
        None => Reloc {
            offset: 0,
            kind: R_RISCV_NONE,
            symbol: 0,
            addend: 0,
        },
    }
}

/// Where an offset of a section stands in its file.
fn place_at(code: &Code, offset: u64) -> u128
    ensures value { result ≡ spec.bytes_from (files_of code.now.tables.now) code.now.section + offset }
    ensures few { result < 2 ^ 100 }
{
    code.start as u128 + offset as u128
}

/// The bytes of a section's file.
fn bytes_of<'a>(code: &Code<'_, 'a>) -> &'a [u8]
    ensures { result.now ≡ (spec.file_of (files_of code.now.tables.now) code.now.section).bytes }
{
    code.file.bytes()
}

/// A relocation of a section as a call, before its target is known.
fn call_of(code: &Code, from: usize, k: usize) -> Call
    ensures { result ≡ spec.call_of from (spec.reloc_of (files_of code.now.tables.now) code.now.section k) k (spec.least_of (spec.file_of (files_of code.now.tables.now) code.now.section) (spec.bytes_at (files_of code.now.tables.now) code.now.section k)) }
{
    let reloc = reloc_at(code, k);
    let at = place_at(code, reloc.offset);
    Call {
        from,
        offset: reloc.offset,
        reloc: k,
        to: 0,
        target: 0,
        least: least_in(code, at),
    }
}

/// The least size that a call at a place of a section's file may have.
fn least_in(code: &Code, at: u128) -> u8
    requires { at < 2 ^ 100 }
    ensures { result ≡ spec.least_of (spec.file_of (files_of code.now.tables.now) code.now.section) at }
{
    least_of(code.file, at)
}

/// Lists the calls of a section, in order of offset, in the place of what stood in the list. The other list is room for offsets.
#[tactic(auto, unfolding(crate::specs::CallSizes::calls_in))]
fn calls_in(
    calls: &mut Vec<Call>,
    hints: &mut Vec<u64>,
    scene: &Scene,
    from: usize,
    section: SecNo,
) -> Result<(), AllocError>
    requires section { section < section_total (files_of scene.now.tables.now) }
    requires from { from < length scene.now.members.now }
    ensures { OnOk result (calls.new.items ≡ spec.calls_in (files_of scene.now.tables.now) (binding_view scene.now.binding.now) (merged_views scene.now.pools.now) scene.now.leaders.now scene.now.members.now from section) }
{
    calls.clear();
    let place = scene.tables.place_of(section);
    let file = scene.tables.file(place.file);
    let code = Code {
        tables: scene.tables,
        section,
        number: place.file,
        file,
        relocs: file.relocs(place.index as usize),
        start: file.section(place.index as usize).offset,
    };
    note_hints(hints, code.relocs)?;
    for k in 0..code.relocs.len() {
        push_call(calls, scene, &code, hints.as_slice(), from, k)?;
    }
    Ok(())
}

/// Lists the calls of a member, if it is a section and calls are relaxed, in the place of what stood in the list. The other list is room for
/// offsets.
#[tactic(auto, unfolding(crate::specs::CallSizes::calls_of))]
pub fn calls_of(
    calls: &mut Vec<Call>,
    hints: &mut Vec<u64>,
    scene: &Scene,
    on: bool,
    from: usize,
) -> Result<(), AllocError>
    requires { from < length scene.now.members.now }
    ensures { OnOk result (calls.new.items ≡ spec.calls_of (files_of scene.now.tables.now) (binding_view scene.now.binding.now) (merged_views scene.now.pools.now) scene.now.leaders.now scene.now.members.now on from) }
{
    calls.clear();
    let Content::Section(section) = scene.members[from].content else {
        return Ok(());
    };
    if !on {
        return Ok(());
    }
    calls_in(calls, hints, scene, from, section)?;
    Ok(())
}
