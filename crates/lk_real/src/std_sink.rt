//! The standard streams as sinks.
#![tactic(auto)]

ghost use Rattle.std.specs.Prelude.{◌≡◌, ◌<◌, ◌≤◌, length, IfOk};
ghost use Rattle.lk_real.specs.declared.std_sink.Stream.TheVariants.{Output, Error};
ghost use Rattle.lk_real.specs.RealStream.{output_of, after_put};

use lk_depot::{Failed, Sink};
use std::io::{self, ErrorKind, Stderr, Stdout};
use std::marker::{Model, PhantomData};

/// One of the two standard streams.
#[derive(Clone, Copy, Debug, PartialEq, Eq)]
pub enum Stream {
    /// The standard output.
    Output,
    /// The standard error.
    Error,
}

/// What lets a sink write to its stream, and to no other.
#[derive(Clone, Copy)]
enum Opened {
    Output(Stdout),
    Error(Stderr),
}

/// The standard output or the standard error, without a buffer.
///
/// It means a `RealStream`: which of the two it is, and how many puts failed.
#[derive(Drop)]
pub struct StdSink<'a> {
    opened: Opened,
    faults: u64,
    runtime: PhantomData<&'a HostRuntime>,
}

impl<'a> Model for StdSink<'a> {
    ghost use Rattle.lk_real.specs.RealStream.{RealStream, stream_of};

    ghost Value = { RealStream };

    ghost view = { λ s. record { stream = stream_of s.opened; faults = s.faults } };
}

/// One write to the stream, made again if a signal interrupts it.
fn write_some(opened: Opened, piece: &[u8]) -> io::Result<usize>
    ensures { IfOk result (λ n. n ≤ length piece.now) }
{
    for _ in 0..u64::MAX {
        let written = match opened {
            Opened::Output(output) => output.write_some(piece),
            Opened::Error(error) => error.write_some(piece),
        };
        match written {
            Ok(written) => return Ok(written),
            Err(error) => {
                if error.kind() != ErrorKind::Interrupted {
                    return Err(error);
                }
            }
        }
    }
    Err(io::Error::from(ErrorKind::Interrupted))
}

impl<'a> StdSink<'a> {
    /// The standard output. It keeps the reference and takes no memory.
    pub fn out(rt: &'a HostRuntime) -> StdSink<'a>
        ensures { result ≡ record { stream = Output; faults = 0 } }
    {
        StdSink {
            opened: Opened::Output(rt.stdout()),
            faults: 0,
            runtime: PhantomData,
        }
    }

    /// The standard error. It keeps the reference and takes no memory.
    pub fn err(rt: &'a HostRuntime) -> StdSink<'a>
        ensures { result ≡ record { stream = Error; faults = 0 } }
    {
        StdSink {
            opened: Opened::Error(rt.stderr()),
            faults: 0,
            runtime: PhantomData,
        }
    }

    /// Which stream it writes to.
    pub fn stream(&self) -> Stream
        ensures { result ≡ self.now.stream }
    {
        match self.opened {
            Opened::Output(_) => Stream::Output,
            Opened::Error(_) => Stream::Error,
        }
    }

    /// How many puts failed.
    pub fn faults(&self) -> u64
        ensures { result ≡ self.now.faults }
    {
        self.faults
    }
}

impl Sink for StdSink<'_> {
    ghost output = { output_of };

    fn put(&mut self, piece: &[u8]) -> Result<usize, Failed>
        requires { 0 < length piece.now }
        ensures some { IfOk result (λ n. 0 < n) }
        ensures most { IfOk result (λ n. n ≤ length piece.now) }
        ensures after { self.new ≡ after_put self.old result }
    {
        let written = write_some(self.opened, piece).unwrap_or(0);
        if written == 0 {
            self.faults = self.faults.saturating_add(1);
            return Err(Failed);
        }
        Ok(written)
    }
}
