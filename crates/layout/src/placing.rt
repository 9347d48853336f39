//! The layout of a link: the classes one after the other, and the limits.

ghost use Rattle.std.specs.Prelude.{◌≡◌, ℕ, ◌+◌, ◌*◌, ◌<◌, ◌≤◌, ◌∷◌, [], ◌++◌, ◌^◌, All, length, map, max, IfOk, OnOk, not, ◌&&◌, if◌then◌else◌, true};
ghost use Rattle.std.specs.List.{sum_by};
ghost use Rattle.lk_base.specs.declared.abi.TheConstants.{ALIGN_MAX, NOBITS_MAX};
ghost use Rattle.lk_base.specs.Arithmetic.{up};
ghost use Rattle.lk_base.specs.Firsts.{Goes, Passes};
ghost use Rattle.lk_base.specs.Limits.{IsWithinStandard};
ghost use Rattle.lk_tables.specs.BoundNames.{IsBindingOf};
ghost use Rattle.lk_tables.specs.BindingView.{binding_view};
ghost use Rattle.lk_tables.specs.Files.{section_total};
ghost use Rattle.lk_tables.specs.declared.classes.Class.TheVariants.{RwNobits, TlsBits, TlsNobits};
ghost use Rattle.lk_tables.specs.TablesView.{files_of};
ghost use Rattle.link_sections.specs.CutsView.{cut_views};
ghost use Rattle.link_sections.specs.GotEntries.{word_count};
ghost use Rattle.link_sections.specs.GotView.{entries_of};
ghost use Rattle.link_sections.specs.LaidOut.{layout_view, with_contents};
ghost use Rattle.link_sections.specs.PoolViews.{pool_list, pools_view};
ghost use Rattle.link_sections.specs.SizesView.{sizes_of};
ghost use Rattle.link_sections.specs.Sound.{IsSound};
ghost use Rattle.output_sections.specs.Items.{AreLeaders, HaveFirsts, IsSized, items};
ghost use Rattle.output_sections.specs.ItemViews.{items_view};
ghost use Rattle.layout.specs.Holding.{AreHeld};
ghost use Rattle.layout.specs.Layout as spec;
ghost use Rattle.output_sections.specs.Order.{orders_of, rows_in};
ghost use Rattle.layout.specs.Spots.{AreApart, AreRising, HasFrames, HaveAlignments, HaveSegments, HaveNobits, IsWithinClass, StartAligned, without_tls_nobits};
ghost use Rattle.layout.specs.Walk as walk;

use crate::cut_rows::lay_rows;
use crate::frames::{FrameBounds, frame_bounds, has_frames, push_frames};
use crate::places::Places;
use crate::walk::{Cursor, Sources, greatest_alignment, is_empty, walk_class};
use link_sections::{Bounds, Got, Layout, Member, OutputPlace, OutputSection, Pools, Sizes};
use lk_base::abi::{EHDR_SIZE, IMAGE_BASE, PAGE, PHDR_SIZE};
use lk_base::kinds::TOO_BIG;
use lk_base::{Defect, Limits, LinkStop, SecNo, count_defect, up};
use lk_tables::{Binding, Class, FramePlan, Tables};
use output_sections::{OutputSections, Row};
use std::alloc::{AllocError, Global};

/// Lays out a link: the sections that are their own leaders, the pools of merged pieces, and last the linker's global offset table; and where an FDE is
/// written, `.eh_frame_hdr` and `.eh_frame` after all else that is only read. `sizes` has by section number where each section loses bytes: a
/// call keeps what it has there, and what an alignment keeps is found here. Refuses an alignment that needs more bytes than it has, the first in
/// order of section and offset; then a count of output sections above its limit; then an image that is not below its limit, however large the
/// unwind records are. Or it is out of memory.
pub fn place<'a>(
    alloc: Global,
    tables: &Tables<'a>,
    binding: &Binding,
    pools: &Pools,
    got: &Got,
    leaders: &[Option<SecNo>],
    sections: &OutputSections<'a>,
    sizes: &Sizes,
    frames: &FramePlan,
    limits: &Limits,
) -> Result<Layout<'a>, LinkStop>
    requires bound { IsBindingOf (files_of tables.now) (binding_view binding.now) }
    requires leaders { AreLeaders (files_of tables.now) (binding_view binding.now) leaders.now }
    requires pools { HaveFirsts (files_of tables.now) (binding_view binding.now) (pool_list pools.now) }
    requires items { items_view sections.now.items.items ≡ items (files_of tables.now) (binding_view binding.now) (pool_list pools.now) (word_count (entries_of got.now)) leaders.now }
    requires sizes { spec.FitSizes (files_of tables.now) (binding_view binding.now) (sizes_of sizes.now) }
    requires small { spec.AreSmall (spec.frame_sizes frames.now) }
    ensures goes { Goes result (spec.layout_defects limits.now (files_of tables.now) (spec.layout_of (files_of tables.now) (binding_view binding.now) (pool_list pools.now) (word_count (entries_of got.now)) leaders.now (sizes_of sizes.now) (spec.frame_sizes frames.now))) }
    ensures found { IfOk result (λ layout. layout_view layout ≡ spec.layout_of (files_of tables.now) (binding_view binding.now) (pool_list pools.now) (word_count (entries_of got.now)) leaders.now (sizes_of sizes.now) (spec.frame_sizes frames.now)) }
    ensures sound { IsWithinStandard limits.now → IfOk result (λ layout. IsSound (files_of tables.now) (binding_view binding.now) leaders.now (with_contents (layout_view layout) (pools_view (files_of tables.now) pools.now) (entries_of got.now))) }
    ensures within { IfOk result (λ layout. spec.IsWithin limits.now (layout_view layout)) }
    ensures rising { IfOk result (λ layout. AreRising layout.bounds) }
    ensures segments { IfOk result (λ layout. HaveSegments layout.bounds) }
    ensures apart { IfOk result (λ layout. AreApart layout.bounds.headers_end (without_tls_nobits (layout_view layout).outputs)) }
    ensures inside { IfOk result (λ layout. All (IsWithinClass layout.bounds) (layout_view layout).outputs) }
    ensures held { IfOk result (λ layout. AreHeld (files_of tables.now) (binding_view binding.now) (pool_list pools.now) (word_count (entries_of got.now)) leaders.now (layout_view layout)) }
    ensures aligned { IfOk result (λ layout. HaveAlignments (files_of tables.now) (binding_view binding.now) (layout_view layout)) }
    ensures starts { IfOk result (λ layout. StartAligned (files_of tables.now) (binding_view binding.now) (pool_list pools.now) leaders.now (layout_view layout)) }
    ensures nobits_members { IfOk result (λ layout. HaveNobits (layout_view layout)) }
    ensures framed { IfOk result (λ layout. HasFrames (spec.frame_sizes frames.now) layout.bounds) }
{
    let layout = lay_out(
        alloc, tables, binding, pools, got, leaders, sections, sizes, frames,
    )?;
    match check_limits(&layout, limits) {
        Ok(()) => Ok(layout),
        Err(defect) => Err(LinkStop::Defect(defect)),
    }
}

/// The layout, whatever the limits.
fn lay_out<'a>(
    alloc: Global,
    tables: &Tables<'a>,
    binding: &Binding,
    pools: &Pools,
    got: &Got,
    leaders: &[Option<SecNo>],
    sections: &OutputSections<'a>,
    sizes: &Sizes,
    frames: &FramePlan,
) -> Result<Layout<'a>, LinkStop>
    requires bound { IsBindingOf (files_of tables.now) (binding_view binding.now) }
    requires leaders { AreLeaders (files_of tables.now) (binding_view binding.now) leaders.now }
    requires pools { HaveFirsts (files_of tables.now) (binding_view binding.now) (pool_list pools.now) }
    requires items { items_view sections.now.items.items ≡ items (files_of tables.now) (binding_view binding.now) (pool_list pools.now) (word_count (entries_of got.now)) leaders.now }
    requires sizes { spec.FitSizes (files_of tables.now) (binding_view binding.now) (sizes_of sizes.now) }
    requires small { spec.AreSmall (spec.frame_sizes frames.now) }
    ensures goes { Goes result (spec.cut_defects (files_of tables.now) (spec.layout_of (files_of tables.now) (binding_view binding.now) (pool_list pools.now) (word_count (entries_of got.now)) leaders.now (sizes_of sizes.now) (spec.frame_sizes frames.now)).cuts (section_total (files_of tables.now))) }
    ensures found { IfOk result (λ layout. layout_view layout ≡ spec.layout_of (files_of tables.now) (binding_view binding.now) (pool_list pools.now) (word_count (entries_of got.now)) leaders.now (sizes_of sizes.now) (spec.frame_sizes frames.now)) }
    ensures sized { IfOk result (λ _. All IsSized (items (files_of tables.now) (binding_view binding.now) (pool_list pools.now) (word_count (entries_of got.now)) leaders.now)) }
    ensures room { IfOk result (λ _. spec.all_weight (orders_of (items (files_of tables.now) (binding_view binding.now) (pool_list pools.now) (word_count (entries_of got.now)) leaders.now)) + 2 ^ 60 + 2 ^ 59 + 2 ^ 45 < 2 ^ 63) }
{
    let (walked, bounds) = walk_sections(
        alloc,
        sections,
        sizes,
        frames,
        tables.section_count(),
        pools.pools().len(),
    )?;
    let cuts = lay_rows(alloc, tables, leaders, sizes, &walked.places.starts)?;
    Ok(Layout {
        outputs: walked.outputs,
        members: walked.members,
        nobits_members: walked.nobits_members,
        places: walked.extents,
        starts: walked.places.starts,
        pools: walked.places.pools,
        got: walked.places.got,
        sizes: Sizes::of(cuts),
        bounds,
    })
}

/// The walk along output sections, whose members are sections and pools of so many.
fn walk_sections<'a>(
    alloc: Global,
    o: &OutputSections<'a>,
    sizes: &Sizes,
    frames: &FramePlan,
    sections: usize,
    pools: usize,
) -> Result<(Walked<'a>, Bounds), AllocError>
    requires there { All (spec.IsThere (sizes_of sizes.now) sections pools) (items_view o.now.items.items) }
    requires small { spec.AreSmall (spec.frame_sizes frames.now) }
    ensures bounds { IfOk result (λ laid. laid.1 ≡ spec.bounds_of (sizes_of sizes.now) (orders_of (items_view o.now.items.items)) (spec.frame_sizes frames.now)) }
    ensures trail { IfOk result (λ laid. spec.trail_view laid.0 ≡ spec.trail_of (sizes_of sizes.now) (items_view o.now.items.items) (orders_of (items_view o.now.items.items)) (spec.bounds_of (sizes_of sizes.now) (orders_of (items_view o.now.items.items)) (spec.frame_sizes frames.now)) (spec.no_trail sections pools)) }
    ensures low { IfOk result (λ laid. All (λ start. start < 2 ^ 63) laid.0.places.starts.items) }
    ensures count { IfOk result (λ laid. length laid.0.places.starts.items ≡ sections) }
{
    let from = Sources {
        alloc,
        items: &o.items,
        sizes,
    };
    let mut walked = no_walk(alloc, sections, pools)?;
    let bounds = walk_all(&from, o, frames, &mut walked)?;
    Ok((walked, bounds))
}

/// Refuses a layout that passes a limit.
#[tactic(auto, unfolding(crate::specs::Layout::limit_defects, link_sections::specs::LaidOut::layout_view))]
fn check_limits(layout: &Layout, limits: &Limits) -> Result<(), Defect>
    ensures { Passes result (spec.limit_defects limits.now (layout_view layout.now)) }
{
    let count = layout.outputs.len() as u64;
    if limits.outputs < count {
        return Err(count_defect(count));
    }
    let size = layout.bounds.image_end.saturating_sub(IMAGE_BASE);
    if limits.image <= size {
        return Err(Defect::linkwide(TOO_BIG, size, 0));
    }
    Ok(())
}

/// Before the walk: nothing stands anywhere.
#[tactic(auto, unfolding(crate::specs::Layout::trail_view, crate::specs::Walk::stands_view))]
fn no_walk(alloc: Global, sections: usize, pools: usize) -> Result<Walked<'static>, AllocError>
    ensures trail { IfOk result (λ walked. spec.trail_view walked ≡ spec.no_trail sections pools) }
{
    Ok(Walked {
        outputs: Vec::new(alloc),
        members: Vec::new(alloc),
        nobits_members: Vec::new(alloc),
        extents: Vec::new(alloc),
        places: Places {
            starts: vec![in alloc; 0u64; sections]?,
            pools: vec![in alloc; 0u64; pools]?,
            got: 0,
            cuts: Vec::new(alloc),
        },
    })
}

/// What the walk has come past.
#[derive(Debug, Drop)]
pub struct Walked<'a> {
    /// The output sections that are not empty.
    pub outputs: Vec<OutputSection<'a>>,
    /// Their members in classes with bytes in the file.
    pub members: Vec<Member>,
    /// Their members in classes without.
    pub nobits_members: Vec<Member>,
    /// Where all output sections are, the empty ones too.
    pub extents: Vec<OutputPlace<'a>>,
    /// Where all members stand, those of empty output sections too.
    pub places: Places,
}

/// A class with bytes in the file, from a cursor on.
#[tactic(auto, unfolding(crate::specs::Layout::trail_view, crate::specs::Layout::with_bits))]
fn walk_bits<'a>(
    from: &Sources<'_, 'a>,
    cursor: Cursor,
    class: Class,
    rows: &[Row],
    walked: &mut Walked<'a>,
) -> Result<Cursor, AllocError>
    requires ready { All (walk.IsReady (sizes_of from.now.sizes.now) (length walked.old.places.starts.items) (length walked.old.places.pools.items)) rows.now }
    requires extra { cursor.extra ≤ ALIGN_MAX }
    requires room { cursor.at + walk.weight rows.now + ALIGN_MAX < 2 ^ 63 }
    ensures end { IfOk result (λ end. end ≡ walk.end_along (sizes_of from.now.sizes.now) cursor (walk.runs rows.now)) }
    ensures trail { OnOk result (spec.trail_view walked.new ≡ spec.with_bits (sizes_of from.now.sizes.now) (items_view from.now.items.now) class cursor rows.now (spec.trail_view walked.old)) }
    ensures bound { IfOk result (λ end. end.at ≤ cursor.at + walk.weight rows.now) }
    ensures extra { IfOk result (λ end. end.extra ≤ ALIGN_MAX) }
    ensures sections { OnOk result (length walked.new.places.starts.items ≡ length walked.old.places.starts.items) }
    ensures pools { OnOk result (length walked.new.places.pools.items ≡ length walked.old.places.pools.items) }
{
    let end = walk_class(
        from,
        cursor,
        class,
        rows,
        &mut walked.outputs,
        &mut walked.members,
        &mut walked.extents,
        &mut walked.places,
    )?;
    Ok(end)
}

/// A class without bytes in the file, from a cursor on.
#[tactic(auto, unfolding(crate::specs::Layout::trail_view, crate::specs::Layout::with_nobits))]
fn walk_nobits<'a>(
    from: &Sources<'_, 'a>,
    cursor: Cursor,
    class: Class,
    rows: &[Row],
    walked: &mut Walked<'a>,
) -> Result<Cursor, AllocError>
    requires ready { All (walk.IsReady (sizes_of from.now.sizes.now) (length walked.old.places.starts.items) (length walked.old.places.pools.items)) rows.now }
    requires extra { cursor.extra ≤ ALIGN_MAX }
    requires room { cursor.at + walk.weight rows.now + ALIGN_MAX < 2 ^ 63 }
    ensures end { IfOk result (λ end. end ≡ walk.end_along (sizes_of from.now.sizes.now) cursor (walk.runs rows.now)) }
    ensures trail { OnOk result (spec.trail_view walked.new ≡ spec.with_nobits (sizes_of from.now.sizes.now) (items_view from.now.items.now) class cursor rows.now (spec.trail_view walked.old)) }
    ensures bound { IfOk result (λ end. end.at ≤ cursor.at + walk.weight rows.now) }
    ensures extra { IfOk result (λ end. end.extra ≤ ALIGN_MAX) }
    ensures sections { OnOk result (length walked.new.places.starts.items ≡ length walked.old.places.starts.items) }
    ensures pools { OnOk result (length walked.new.places.pools.items ≡ length walked.old.places.pools.items) }
{
    let end = walk_class(
        from,
        cursor,
        class,
        rows,
        &mut walked.outputs,
        &mut walked.nobits_members,
        &mut walked.extents,
        &mut walked.places,
    )?;
    Ok(end)
}

/// The unwind records, after what is only read.
#[tactic(auto, unfolding(crate::specs::Layout::trail_view, crate::specs::Layout::with_frames))]
fn walk_frames(frames: &FrameBounds, walked: &mut Walked) -> Result<(), AllocError>
    requires header { frames.now.header ≤ frames.now.header_end }
    requires frames { frames.now.frames ≤ frames.now.frames_end }
    ensures trail { OnOk result (spec.trail_view walked.new ≡ spec.with_frames frames.now (spec.trail_view walked.old)) }
    ensures sections { OnOk result (length walked.new.places.starts.items ≡ length walked.old.places.starts.items) }
    ensures pools { OnOk result (length walked.new.places.pools.items ≡ length walked.old.places.pools.items) }
{
    push_frames(frames, &mut walked.outputs, &mut walked.extents)
}

fn count_of(test: bool) -> u64
    ensures value { result ≡ spec.count_of test }
    ensures most { result ≤ 1 }
{
    if test {
        return 1;
    }
    0
}

/// A cursor, where the next output section that is not empty takes an alignment beside its own.
fn cursor(at: u64, extra: u64) -> Cursor
    ensures { result ≡ record { at = at; extra = extra } }
{
    Cursor { at, extra }
}

#[tactic(auto, unfolding(crate::specs::Layout::has_rx))]
fn has_rx(o: &OutputSections) -> bool
    ensures { result ≡ spec.has_rx o.now.rows }
{
    !is_empty(o.class(Class::Rx))
}

#[tactic(auto, unfolding(crate::specs::Layout::has_tls_bits))]
fn has_tls_bits(o: &OutputSections) -> bool
    ensures { result ≡ spec.has_tls_bits o.now.rows }
{
    !is_empty(o.class(Class::TlsBits))
}

#[tactic(auto, unfolding(crate::specs::Layout::has_tls))]
fn has_tls(o: &OutputSections) -> bool
    ensures { result ≡ spec.has_tls o.now.rows }
{
    !(is_empty(o.class(Class::TlsBits)) && is_empty(o.class(Class::TlsNobits)))
}

#[tactic(auto, unfolding(crate::specs::Layout::has_rw))]
fn has_rw(o: &OutputSections) -> bool
    ensures { result ≡ spec.has_rw o.now.rows }
{
    !(is_empty(o.class(Class::TlsBits))
        && (is_empty(o.class(Class::RwBits)) && is_empty(o.class(Class::RwNobits))))
}

#[tactic(auto, unfolding(crate::specs::Layout::headers_of))]
fn headers_of(o: &OutputSections, frames: &FramePlan) -> u64
    ensures value { result ≡ spec.headers_of o.now.rows (spec.frame_sizes frames.now) }
    ensures most { result ≤ 6 }
{
    2 + count_of(has_rx(o))
        + count_of(has_rw(o))
        + count_of(has_tls(o))
        + count_of(has_frames(frames))
}

/// The greatest alignment of a thread-local member, at least 1.
#[tactic(auto, unfolding(crate::specs::Layout::tls_align_of))]
fn tls_align_of(o: &OutputSections) -> u64
    requires bits { All (λ row. row.align ≤ ALIGN_MAX) (rows_in o.now.rows TlsBits) }
    requires nobits { All (λ row. row.align ≤ ALIGN_MAX) (rows_in o.now.rows TlsNobits) }
    ensures value { result ≡ spec.tls_align_of o.now.rows }
    ensures some { 1 ≤ result }
    ensures bound { result ≤ ALIGN_MAX }
{
    greatest_alignment(o.class(Class::TlsBits)).max(greatest_alignment(o.class(Class::TlsNobits)))
}

/// Where the first thread-local output section that is not empty starts, or 0.
fn tls_start_of(has_tls: bool, rw_start: u64, tls_align: u64) -> u64
    requires some { 1 ≤ tls_align }
    requires room { rw_start + tls_align < 2 ^ 64 }
    ensures { result ≡ (if has_tls then up rw_start tls_align else 0) }
{
    if has_tls {
        return up(rw_start, tls_align);
    }
    0
}

/// The end of the last class with bits that is not empty.
fn last_end(o: &OutputSections, r_end: u64, rx_end: u64, tls_bits_end: u64, bits_end: u64) -> u64
    ensures { result ≡ spec.last_end o.now.rows r_end rx_end tls_bits_end bits_end }
{
    if !is_empty(o.class(Class::RwBits)) {
        return bits_end;
    }
    if !is_empty(o.class(Class::TlsBits)) {
        return tls_bits_end;
    }
    if !is_empty(o.class(Class::Rx)) {
        return rx_end;
    }
    r_end
}

fn image_end_of(o: &OutputSections, file_end: u64, nobits_end: u64) -> u64
    ensures { result ≡ (if not (walk.is_empty (rows_in o.now.rows RwNobits)) then nobits_end else file_end) }
{
    if !is_empty(o.class(Class::RwNobits)) {
        return nobits_end;
    }
    file_end
}

/// The walk along all classes.
fn walk_all<'a>(
    from: &Sources<'_, 'a>,
    o: &OutputSections,
    frames: &FramePlan,
    walked: &mut Walked<'a>,
) -> Result<Bounds, AllocError>
    requires ready { spec.AreReady (sizes_of from.now.sizes.now) (length walked.old.places.starts.items) (length walked.old.places.pools.items) o.now.rows }
    requires room { spec.all_weight o.now.rows + 2 ^ 60 + 2 ^ 59 + 2 ^ 45 < 2 ^ 63 }
    requires small { spec.AreSmall (spec.frame_sizes frames.now) }
    ensures bounds { IfOk result (λ bounds. bounds ≡ spec.bounds_of (sizes_of from.now.sizes.now) o.now.rows (spec.frame_sizes frames.now)) }
    ensures trail { IfOk result (λ bounds. spec.trail_view walked.new ≡ spec.trail_of (sizes_of from.now.sizes.now) (items_view from.now.items.now) o.now.rows bounds (spec.trail_view walked.old)) }
    ensures sections { OnOk result (length walked.new.places.starts.items ≡ length walked.old.places.starts.items) }
{
    let headers = headers_of(o, frames);
    let headers_end = IMAGE_BASE + (EHDR_SIZE + PHDR_SIZE * headers);
    let rows_end = walk_bits(
        from,
        cursor(headers_end, 1),
        Class::R,
        o.class(Class::R),
        walked,
    )?
    .at;
    let last = frame_bounds(frames, rows_end);
    walk_frames(&last, walked)?;
    let r_end = last.r_end;
    let rx_start = up(r_end, PAGE);
    let rx_end = walk_bits(
        from,
        cursor(rx_start, 1),
        Class::Rx,
        o.class(Class::Rx),
        walked,
    )?
    .at;
    let rw_start = up(rx_end, PAGE);
    let tls_align = tls_align_of(o);
    let tls = cursor(rw_start, tls_align);
    let tls_bits = walk_bits(from, tls, Class::TlsBits, o.class(Class::TlsBits), walked)?;
    let tls_end = walk_nobits(
        from,
        tls_bits,
        Class::TlsNobits,
        o.class(Class::TlsNobits),
        walked,
    )?
    .at;
    let tls_bits_end = tls_bits.at;
    let written = cursor(tls_bits_end, 1);
    let bits_end = walk_bits(from, written, Class::RwBits, o.class(Class::RwBits), walked)?.at;
    let nobits_start = cursor(bits_end, 1);
    let nobits_end = walk_nobits(
        from,
        nobits_start,
        Class::RwNobits,
        o.class(Class::RwNobits),
        walked,
    )?
    .at;
    let file_end = last_end(o, r_end, rx_end, tls_bits_end, bits_end);
    Ok(Bounds {
        has_rx: has_rx(o),
        has_rw: has_rw(o),
        has_tls: has_tls(o),
        has_tls_bits: has_tls_bits(o),
        has_frames: last.has_frames,
        headers,
        headers_end,
        frame_header: last.header,
        frame_header_end: last.header_end,
        frames: last.frames,
        frames_end: last.frames_end,
        r_end,
        rx_start,
        rx_end,
        rw_start,
        tls_start: tls_start_of(has_tls(o), rw_start, tls_align),
        tls_bits_end,
        tls_end,
        tls_align,
        bits_end,
        nobits_end,
        file_end,
        image_end: image_end_of(o, file_end, nobits_end),
    })
}
