//! Writing all of some bytes to a file or a stream, however few of them each call takes.
#![tactic(auto)]

ghost use Rattle.std.specs.Prelude.{◌≡◌, ℕ, ◌<◌, take, length, OnOk, OnErr};
ghost use Rattle.lk_depot.specs.Faults.{HasCause};
ghost use Rattle.lk_depot.specs.Files.{added_if_seen};
ghost use Rattle.lk_depot.specs.Output.{said_if_seen};

use crate::output::Sink;
use crate::stops::Failed;
use crate::store::Depot;

/// Adds these bytes to the end of the file of this name.
///
/// If a call of the depot fails, a prefix of them was added, and not all. No bytes make no call.
pub fn put_all<D: Depot>(depot: &mut D, name: &str, bytes: &[u8]) -> Result<(), Failed>
    ensures ok { OnOk result ((D.store depot.new).files ≡ added_if_seen name.now bytes.now (D.store depot.old).files) }
    ensures err { OnErr result ((n : ℕ) × (n < length bytes.now)
        × ((D.store depot.new).files ≡ added_if_seen name.now (take n bytes.now) (D.store depot.old).files)) }
    ensures cause { HasCause (D.store depot.old).faults (D.store depot.new).faults result }
    ensures kinds { (D.store depot.new).kinds ≡ (D.store depot.old).kinds }
    ensures begun { (D.store depot.new).begun ≡ (D.store depot.old).begun }
    ensures unread { (D.store depot.new).unread ≡ (D.store depot.old).unread }
{
    let mut done = 0;
    while done < bytes.len() {
        done += depot.append(name, &bytes[done..])?;
    }
    Ok(())
}

/// Writes these bytes to the sink.
///
/// If a call of the sink fails, a prefix of them was written, and not all. No bytes make no call.
pub fn say_all<S: Sink>(sink: &mut S, bytes: &[u8]) -> Result<(), Failed>
    ensures ok { OnOk result ((S.output sink.new).written ≡ said_if_seen bytes.now (S.output sink.old).written) }
    ensures err { OnErr result ((n : ℕ) × (n < length bytes.now)
        × ((S.output sink.new).written ≡ said_if_seen (take n bytes.now) (S.output sink.old).written)) }
    ensures cause { HasCause (S.output sink.old).faults (S.output sink.new).faults result }
{
    let mut said = 0;
    while said < bytes.len() {
        said += sink.put(&bytes[said..])?;
    }
    Ok(())
}
