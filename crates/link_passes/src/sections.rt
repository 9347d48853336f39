//! How many sections a link has.

ghost use Rattle.std.specs.Prelude.{◌≡◌, ℕ, ◌<◌, ◌≤◌, ◌^◌, is_some, length, slice_index_or, if◌then◌else◌, true, None};
ghost use Rattle.lk_tables.specs.Files.{file_at, section_total};
ghost use Rattle.lk_tables.specs.FileView.{file_view, file_views};
ghost use Rattle.lk_tables.specs.Gathering.{with_objects};
ghost use Rattle.link_passes.specs.Counts.{count_of};

use lk_tables::{File, Object};

/// How many section numbers a file has if it takes part: its sections, and its COMMON symbols.
fn count_file(file: &File, live: bool) -> u64
    requires { live ≡ true → count_of (file_view file.now) < 2 ^ 28 }
    ensures { result ≡ (if live then count_of (file_view file.now) else 0) }
{
    if !live {
        return 0;
    }
    file.sections().len() as u64 + file.commons() as u64
}

/// How many section numbers the files have that take part, which are those with a body.
pub fn count_sections(files: &[File], objects: &[Option<Object>]) -> u64
    requires each { length objects.now ≡ length files.now }
    requires count { length files.now < 2 ^ 24 }
    requires few { (f : ℕ) → f < length files.now → is_some (slice_index_or objects.now f None) ≡ true → count_of (file_at (file_views files.now) f) < 2 ^ 28 }
    ensures { result ≡ section_total (with_objects (file_views files.now) objects.now) }
{
    let mut total = 0;
    for f in 0..files.len() {
        total += count_file(&files[f], objects[f].is_some());
    }
    total
}
