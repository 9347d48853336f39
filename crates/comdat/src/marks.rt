//! The sections of groups that go, by number.

ghost use Rattle.std.specs.Prelude.{◌≡◌, ◌<◌, length, All};
ghost use Rattle.lk_tables.specs.Files.{section_total};
ghost use Rattle.lk_tables.specs.TablesView.{files_of};
ghost use Rattle.lk_tables.specs.Reach.{with_marked};
ghost use Rattle.comdat.specs.Comdats.{comdat_view, comdat_views};
ghost use Rattle.comdat.specs.Marks.{IsOfFiles, beaten, beaten_members, members_of};

use crate::groups::ComdatGroup;
use lk_tables::Tables;

/// Marks the members of each group of whose signature another stands before it. The number of a signature is the place of the first group
/// that has it.
pub fn mark_beaten(marks: &mut Vec<bool>, tables: &Tables, groups: &[ComdatGroup], numbers: &[u32])
    requires wide { length marks.old.items ≡ section_total (files_of tables.now) }
    requires files { All (IsOfFiles (files_of tables.now)) (comdat_views groups.now) }
    requires numbers { length numbers.now ≡ length groups.now }
    ensures { marks.new.items ≡ with_marked marks.old.items (beaten_members (files_of tables.now) (comdat_views groups.now) numbers.now) }
{
    for j in 0..groups.len() {
        if is_beaten(numbers, j) {
            mark_members(marks, tables, &groups[j]);
        }
    }
}

/// Whether a signature's number is not this place.
fn is_beaten(numbers: &[u32], j: usize) -> bool
    requires { j < length numbers.now }
    ensures { result ≡ beaten numbers.now j }
{
    numbers[j] as usize != j
}

/// Marks the members of a group. A member that is past the end of its file's section table is no section.
fn mark_members(marks: &mut Vec<bool>, tables: &Tables, group: &ComdatGroup)
    requires wide { length marks.old.items ≡ section_total (files_of tables.now) }
    requires file { IsOfFiles (files_of tables.now) (comdat_view group.now) }
    ensures { marks.new.items ≡ with_marked marks.old.items (members_of (files_of tables.now) (comdat_view group.now)) }
{
    let file = group.file as usize;
    let count = tables.files()[file].sections().len();
    for member in group.members {
        let section = *member as usize;
        if section < count {
            marks[tables.section_no(file, section)] = true;
        }
    }
}
