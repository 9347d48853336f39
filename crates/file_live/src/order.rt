//! Where an archive stands among the files of a command.

ghost use Rattle.std.specs.Prelude.{◌<◌, ◌^◌, length};
ghost use Rattle.lk_tables.specs.FileView.{file_views};
ghost use Rattle.lk_tables.specs.Files.{symbol_total};
ghost use Rattle.file_live.specs.Order.{StandsAnywhere};
ghost use Rattle.file_live.specs.Pulls.{lists_of};

use lk_tables::File;

/// That an archive may stand anywhere among the objects of a command: the same files take part wherever each object stands, as long as members come
/// one after another as they do. Nothing is done while a program runs: all that is said here is in the clause.
pub fn prove_archives_stand_anywhere(files: &[File], undefined: &[Vec<u8>])
    requires files { length files.now < 2 ^ 24 }
    requires symbols { symbol_total (file_views files.now) < 2 ^ 31 }
    ensures { StandsAnywhere (lists_of undefined.now) (file_views files.now) }
{}
