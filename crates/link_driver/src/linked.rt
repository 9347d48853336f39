//! What a link gives, and how it is written: its executable is made block by block, while it is written.

ghost use Rattle.std.specs.Prelude.{◌≡◌, ℕ, ◌≤◌, ◌<◌, ◌^◌, ◌+◌, ◌*◌, length, drop, take, true, IfOk, OnErr, OnOk};
ghost use Rattle.elf_out.specs.Executable.{own_tables};
ghost use Rattle.elf_out.specs.Prepared.{IsPrepared};
ghost use Rattle.link_sections.specs.Addresses.{AreAddresses};
ghost use Rattle.link_sections.specs.GotUses.{HasAllUses};
ghost use Rattle.link_sections.specs.GotView.{entries_of};
ghost use Rattle.link_sections.specs.Sound.{IsSound};
ghost use Rattle.link_sections.specs.Views.{binding_in, files_in, laid_in, leaders_in};
ghost use Rattle.lk_depot.specs.Faults.{HasCause};
ghost use Rattle.lk_depot.specs.Files.{added_if_seen};
ghost use Rattle.lk_tables.specs.BindingView.{binding_view};
ghost use Rattle.lk_tables.specs.TablesView.{files_of, have_numbers};
ghost use Rattle.lk_tables.specs.Uppers.{AreListed, section_uppers};
ghost use Rattle.link_driver.specs.Linked.{exe_of, laid_of, settled_view, with_why};
ghost use Rattle.link_driver.specs.Placing.{laid_by};

use crate::executable::Executable;
use crate::placing::Placement;
use crate::writing::{Settled, Written};
use elf_out::{BLOCK, fill_window};
use link_passes::numbers_of;
use link_sections::View;
use lk_depot::{Depot, Failed, put_all};
use lk_tables::{Binding, Frames, Tables};
use std::alloc::AllocError;
use std::marker::Model;
use std::thread::Threads;
use work_split::Gate;

/// What a link without a defect gives: the bytes of the executable, which are made while they are written and are nowhere whole; those of the map,
/// none if no map is asked for; and what is said of the link: the report, and what is asked why, nothing if neither is asked for.
///
/// No call of it takes memory.
#[derive(Drop)]
pub struct Linked<'a> {
    executable: Executable<'a>,
    /// Room for the blocks that are made at the same time.
    window: Vec<u8>,
    map: Vec<u8>,
    report: Vec<u8>,
    /// The unwind records of the files, which nothing needs any more: their many lists are freed with the rest, or never.
    records: Option<Frames>,
}

impl<'a> Model for Linked<'a> {
    ghost use Rattle.std.specs.Prelude.{◌≤◌, length};
    ghost use Rattle.link_driver.specs.Linked.{LinkedView, exe_of};

    ghost Value = { LinkedView };

    ghost view = { λ l. record { exe = exe_of l.executable; map = l.map.items; report = l.report.items } };

    ghost invariant = { λ l. 65536 ≤ length l.window.items };
}

/// All tables of an executable, lent.
fn view_of<'t, 'a>(executable: &'t Executable<'a>) -> View<'t, 'a>
    ensures files { files_in result ≡ files_of executable.now.tables }
    ensures binding { binding_in result ≡ binding_view executable.now.binding }
    ensures kept { result.kept.now ≡ executable.now.kept.items }
    ensures strip { result.strip ≡ executable.now.strip }
    ensures leaders { leaders_in result ≡ executable.now.leaders.items }
    ensures laid { laid_in result ≡ laid_of executable.now }
{
    View {
        tables: &executable.tables,
        binding: &executable.binding,
        kept: executable.kept.as_slice(),
        pools: &executable.pools,
        leaders: executable.leaders.as_slice(),
        got: &executable.got,
        layout: &executable.layout,
        addresses: &executable.addresses,
        uppers: &executable.uppers,
        numbers: numbers_of(&executable.tables),
        names: &[],
        strip: executable.strip,
    }
}

/// Makes the bytes of an executable from the file offset `65536 * k` on, as many as a window has, which end within the file.
fn fill_from<R: Threads + Sync, G: Gate>(
    rt: &R,
    window: &mut [u8],
    executable: &Executable,
    k: u64,
    gate: &G,
)
    requires { 65536 * k + length window.old ≤ length (exe_of executable.now) }
    ensures { window.new ≡ take (length window.old) (drop (65536 * k) (exe_of executable.now)) }
{
    let view = view_of(executable);
    fill_window(
        rt,
        window,
        &view,
        &executable.frames,
        &executable.prepared,
        k,
        gate,
    );
}

/// Adds these bytes to the end of a file, block by block.
fn put_blocks<D: Depot>(depot: &mut D, name: &str, bytes: &[u8]) -> Result<(), Failed>
    ensures ok { OnOk result ((D.store depot.new).files ≡ added_if_seen name.now bytes.now (D.store depot.old).files) }
    ensures err { OnErr result ((n : ℕ) × (n < length bytes.now)
        × ((D.store depot.new).files ≡ added_if_seen name.now (take n bytes.now) (D.store depot.old).files)) }
    ensures cause { HasCause (D.store depot.old).faults (D.store depot.new).faults result }
    ensures kinds { (D.store depot.new).kinds ≡ (D.store depot.old).kinds }
    ensures begun { (D.store depot.new).begun ≡ (D.store depot.old).begun }
    ensures unread { (D.store depot.new).unread ≡ (D.store depot.old).unread }
{
    let mut done = 0;
    while done < bytes.len() {
        let end = done + (bytes.len() - done).min(BLOCK as usize);
        match put_all(depot, name, &bytes[done..end]) {
            Ok(()) => {}
            Err(failed) => return Err(failed),
        }
        done = end;
    }
    Ok(())
}

/// How many bytes an executable has.
fn length_of(executable: &Executable) -> u64
    ensures value { result ≡ length (exe_of executable.now) }
    ensures low { result < 2 ^ 63 }
{
    executable.prepared.file_length()
}

/// Makes the blocks of an executable from the one of number `k` on over a window, which end within the file, and adds them to the end of a file.
fn write_window<R: Threads + Sync, D: Depot, G: Gate>(
    rt: &R,
    depot: &mut D,
    name: &str,
    executable: &Executable,
    window: &mut [u8],
    k: u64,
    gate: &G,
) -> Result<(), Failed>
    requires within { 65536 * k + length window.old ≤ length (exe_of executable.now) }
    ensures ok { OnOk result ((D.store depot.new).files ≡ added_if_seen name.now (take (length window.old) (drop (65536 * k) (exe_of executable.now))) (D.store depot.old).files) }
    ensures err { OnErr result ((n : ℕ) × (n < length window.old)
        × ((D.store depot.new).files ≡ added_if_seen name.now (take n (take (length window.old) (drop (65536 * k) (exe_of executable.now)))) (D.store depot.old).files)) }
    ensures cause { HasCause (D.store depot.old).faults (D.store depot.new).faults result }
    ensures kinds { (D.store depot.new).kinds ≡ (D.store depot.old).kinds }
    ensures begun { (D.store depot.new).begun ≡ (D.store depot.old).begun }
    ensures unread { (D.store depot.new).unread ≡ (D.store depot.old).unread }
{
    fill_from(rt, window, executable, k, gate);
    put_blocks(depot, name, window)
}

/// Makes an executable and adds it to the end of a file, window by window: the blocks of one are made at the same time, and then added in order.
fn write_windows<R: Threads + Sync, D: Depot, G: Gate>(
    rt: &R,
    depot: &mut D,
    name: &str,
    executable: &Executable,
    window: &mut [u8],
    gate: &G,
) -> Result<(), Failed>
    requires { 65536 ≤ length window.old }
    ensures ok { OnOk result ((D.store depot.new).files ≡ added_if_seen name.now (exe_of executable.now) (D.store depot.old).files) }
    ensures err { OnErr result ((n : ℕ) × (n < length (exe_of executable.now))
        × ((D.store depot.new).files ≡ added_if_seen name.now (take n (exe_of executable.now)) (D.store depot.old).files)) }
    ensures cause { HasCause (D.store depot.old).faults (D.store depot.new).faults result }
    ensures kinds { (D.store depot.new).kinds ≡ (D.store depot.old).kinds }
    ensures begun { (D.store depot.new).begun ≡ (D.store depot.old).begun }
    ensures unread { (D.store depot.new).unread ≡ (D.store depot.old).unread }
{
    let end = length_of(executable);
    let blocks = window.len() as u64 / BLOCK;
    let mut done: u64 = 0;
    let mut k: u64 = 0;
    while done < end {
        let size = (BLOCK * blocks).min(end - done);
        match write_window(
            rt,
            depot,
            name,
            executable,
            &mut window[..size as usize],
            k,
            gate,
        ) {
            Ok(()) => {}
            Err(failed) => return Err(failed),
        }
        done += size;
        k += blocks;
    }
    Ok(())
}

impl<'a> Linked<'a> {
    /// What is settled of a link, with all tables of it; what is asked why is said after the report. The only error is out of memory.
    pub(crate) fn of<'t>(
        tables: Tables<'a>,
        binding: Binding,
        kept: Vec<bool>,
        settled: Settled<'a, 't>,
        strip: bool,
        why: &[u8],
    ) -> Result<Linked<'a>, AllocError>
        requires numbered { have_numbers tables ≡ true }
        requires listed { AreListed (section_uppers (files_of tables)) settled.uppers }
        requires uses { HasAllUses (files_of tables) settled.placement.leaders.items (entries_of settled.placement.got) }
        requires sound { IsSound (files_of tables) (binding_view binding) settled.placement.leaders.items (laid_by (files_of tables) settled.placement) }
        requires addresses { AreAddresses (files_of tables) (binding_view binding) settled.placement.leaders.items (laid_by (files_of tables) settled.placement) settled.written.addresses }
        requires prepared { IsPrepared (files_of tables) (binding_view binding) settled.placement.leaders.items (laid_by (files_of tables) settled.placement) (own_tables (files_of tables) (binding_view binding) kept.items strip settled.placement.leaders.items (laid_by (files_of tables) settled.placement)) settled.written.prepared }
        requires window { 65536 ≤ length settled.written.window.items }
        ensures { IfOk result (λ linked. linked ≡ with_why why.now (settled_view (files_of tables.entry) (binding_view binding) kept.items strip settled.entry)) }
    {
        let Settled {
            uppers,
            placement,
            written,
        } = settled;
        let Placement {
            pools,
            leaders,
            plan,
            got,
            layout,
        } = placement;
        let Written {
            addresses,
            frames,
            prepared,
            map,
            report,
            window,
        } = written;
        let _ = plan;
        let mut report = report;
        report.extend_from_slice(why)?;
        Ok(Linked {
            executable: Executable {
                tables,
                binding,
                kept,
                pools,
                leaders,
                got,
                layout,
                addresses,
                uppers,
                strip,
                frames,
                prepared,
            },
            window,
            map,
            report,
            records: None,
        })
    }

    /// Holds the unwind records of the files until it is freed itself.
    pub(crate) fn hold(&mut self, records: Frames)
        ensures { self.new ≡ self.old }
    {
        self.records = Some(records);
    }

    /// How many bytes the executable has.
    pub fn exe_len(&self) -> u64
        ensures { result ≡ length self.now.exe }
    {
        length_of(&self.executable)
    }

    /// The bytes of the map, none if no map is asked for.
    pub fn map(&self) -> &[u8]
        ensures { result.now ≡ self.now.map }
    {
        self.map.as_slice()
    }

    /// What is said of the link, nothing if neither a report nor a reason is asked for.
    pub fn report(&self) -> &[u8]
        ensures { result.now ≡ self.now.report }
    {
        self.report.as_slice()
    }

    /// Adds the executable to the end of the file of this name, in blocks of 65,536 bytes, each by a `put_all` of its own. Where the executable has
    /// many relocations (1,024 a block on average), as many blocks are made at the same time as there are workers of the link, or as the executable
    /// has blocks; else one is made at a time. `gate` is called before and after each block where two or more are made at the same time.
    ///
    /// If a call of the depot fails, a prefix of the executable was added, and not all. It may be written again, to this file or another.
    pub fn write_exe<R: Threads + Sync, D: Depot, G: Gate>(
        &mut self,
        rt: &R,
        depot: &mut D,
        name: &str,
        gate: &G,
    ) -> Result<(), Failed>
        ensures ok { OnOk result ((D.store depot.new).files ≡ added_if_seen name.now self.old.exe (D.store depot.old).files) }
        ensures err { OnErr result ((n : ℕ) × (n < length self.old.exe)
            × ((D.store depot.new).files ≡ added_if_seen name.now (take n self.old.exe) (D.store depot.old).files)) }
        ensures cause { HasCause (D.store depot.old).faults (D.store depot.new).faults result }
        ensures kinds { (D.store depot.new).kinds ≡ (D.store depot.old).kinds }
        ensures begun { (D.store depot.new).begun ≡ (D.store depot.old).begun }
        ensures unread { (D.store depot.new).unread ≡ (D.store depot.old).unread }
        ensures lists { self.new ≡ self.old }
    {
        let executable = &self.executable;
        let window = &mut self.window;
        write_windows(rt, depot, name, executable, window, gate)
    }
}
