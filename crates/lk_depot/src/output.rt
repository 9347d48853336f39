//! A stream that is written to: what a program may ask of a standard stream, and what each answer means.
#![tactic(auto)]

ghost use Rattle.std.specs.Prelude.{◌≡◌, ◌<◌, ◌≤◌, take, length, IfOk, MatchResult};
ghost use Rattle.lk_depot.specs.Faults.{HasCause};
ghost use Rattle.lk_depot.specs.Output.{Output, said_if_seen};

use crate::stops::Failed;

/// A stream that takes bytes.
///
/// Its ghost view is an `Output`: what was written to it, where contracts can see that, and the count of its faults since it was made.
pub trait Sink {
    ghost output: { Self → Output };

    /// Writes the first bytes of `piece`, at least one of them, and says how many.
    ///
    /// If it fails, nothing was written.
    fn put(&mut self, piece: &[u8]) -> Result<usize, Failed>
        requires { 0 < length piece.now }
        ensures some { IfOk result (λ n. 0 < n) }
        ensures most { IfOk result (λ n. n ≤ length piece.now) }
        ensures written { MatchResult result
            (λ n. (output self.new).written ≡ said_if_seen (take n piece.now) (output self.old).written)
            (λ _. (output self.new).written ≡ (output self.old).written) }
        ensures cause { HasCause (output self.old).faults (output self.new).faults result };
}
