//! Which classes have items.

ghost use Rattle.std.specs.Prelude.{◌≡◌, ◌||◌};
ghost use Rattle.lk_tables.specs.declared.classes.Class.TheVariants as classes;
ghost use Rattle.lk_tables.specs.Classes.{is_in};
ghost use Rattle.output_sections.specs.Present.{ArePresent, has};

use crate::items::Item;
use lk_tables::{Class, is_in};

/// Of each class, whether an item of it was met.
#[derive(Clone, Copy)]
pub struct Present {
    pub r: bool,
    pub rx: bool,
    pub tls_bits: bool,
    pub tls_nobits: bool,
    pub rw_bits: bool,
    pub rw_nobits: bool,
}

/// Which classes have items. One walk finds it of all: a class that has none would read all items to learn that.
pub fn present_in(items: &[Item]) -> Present
    ensures { ArePresent items.now result }
{
    let mut present = Present {
        r: false,
        rx: false,
        tls_bits: false,
        tls_nobits: false,
        rw_bits: false,
        rw_nobits: false,
    };
    for i in 0..items.len() {
        present = with_item(present, &items[i]);
    }
    present
}

/// One more item.
fn with_item(present: Present, item: &Item) -> Present
    ensures r { result.r ≡ (present.r || is_in classes.R item.now.sh_type item.now.flags) }
    ensures rx { result.rx ≡ (present.rx || is_in classes.Rx item.now.sh_type item.now.flags) }
    ensures tls_bits { result.tls_bits ≡ (present.tls_bits || is_in classes.TlsBits item.now.sh_type item.now.flags) }
    ensures tls_nobits { result.tls_nobits ≡ (present.tls_nobits || is_in classes.TlsNobits item.now.sh_type item.now.flags) }
    ensures rw_bits { result.rw_bits ≡ (present.rw_bits || is_in classes.RwBits item.now.sh_type item.now.flags) }
    ensures rw_nobits { result.rw_nobits ≡ (present.rw_nobits || is_in classes.RwNobits item.now.sh_type item.now.flags) }
{
    Present {
        r: present.r | is_in(Class::R, item.sh_type, item.flags),
        rx: present.rx | is_in(Class::Rx, item.sh_type, item.flags),
        tls_bits: present.tls_bits | is_in(Class::TlsBits, item.sh_type, item.flags),
        tls_nobits: present.tls_nobits | is_in(Class::TlsNobits, item.sh_type, item.flags),
        rw_bits: present.rw_bits | is_in(Class::RwBits, item.sh_type, item.flags),
        rw_nobits: present.rw_nobits | is_in(Class::RwNobits, item.sh_type, item.flags),
    }
}

/// Whether a class has items.
pub fn is_present(present: &Present, class: Class) -> bool
    ensures { result ≡ has present.now class }
{
    match class {
        Class::R => present.r,
        Class::Rx => present.rx,
        Class::TlsBits => present.tls_bits,
        Class::TlsNobits => present.tls_nobits,
        Class::RwBits => present.rw_bits,
        Class::RwNobits => present.rw_nobits,
    }
}
