//! `rvld_piped -s -o program start.o part.o`: does what `rvld` does, and reads its files while it loads them.
//!
//! `run_piped` of link_driver reads the command, links, and says how the run ended; `main` gives `run_piped` the command's words and the real files
//! and streams, and ends with its status. Where there is no memory for the words the status is 4.
#![tactic(auto)]

use link_driver::{OpenGate, run_piped};
use lk_real::{RealDepot, StdSink, keep_freed_memory, null_device, words_of};
use std::process::ExitCode;

fn main(rt: HostRuntime) -> ExitCode {
    let alloc = rt.alloc();
    let _ = keep_freed_memory(alloc);
    let _input = null_device(&rt);
    let _output = null_device(&rt);
    let _error = null_device(&rt);
    let Ok(words) = words_of(&rt, alloc) else {
        return ExitCode::from(4);
    };
    let mut depot = RealDepot::new(&rt, alloc);
    let mut say = StdSink::out(&rt);
    let mut err = StdSink::err(&rt);
    let status = run_piped(
        &rt,
        alloc,
        words.as_slice(),
        &mut depot,
        &mut say,
        &mut err,
        &OpenGate,
    );
    ExitCode::from(status)
}
