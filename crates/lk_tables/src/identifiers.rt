//! Identifiers of C.

ghost use Rattle.std.specs.Prelude.{◌≡◌, slice_index};
ghost use Rattle.std.specs.List.{list_all};
ghost use Rattle.lk_tables.specs.LinkerSymbols as spec;

/// Whether a text is an identifier of C: letters, digits and `_`, and no digit first.
#[tactic(auto, unfolding(crate::specs::LinkerSymbols::is_c_identifier))]
pub fn is_c_identifier(text: &[u8]) -> bool
    ensures { result ≡ spec.is_c_identifier text.now }
{
    is_letter(first_of(text)) && all_pass(text)
}

/// The first byte of a name, 0 if it has none.
fn first_of(name: &[u8]) -> u8
    ensures { result ≡ slice_index name.now 0 }
{
    match name.get(0) {
        Some(byte) => *byte,
        None => 0,
    }
}

/// Whether a name has letters and digits alone.
fn all_pass(name: &[u8]) -> bool
    ensures { result ≡ list_all spec.is_letter_or_digit name.now }
{
    name.iter().all(|byte| is_letter_or_digit(*byte))
}

fn is_letter_or_digit(byte: u8) -> bool
    ensures { result ≡ spec.is_letter_or_digit byte }
{
    is_letter(byte) || (b'0' <= byte && byte <= b'9')
}

fn is_letter(byte: u8) -> bool
    ensures { result ≡ spec.is_letter byte }
{
    (b'A' <= byte && byte <= b'Z') || ((b'a' <= byte && byte <= b'z') || byte == b'_')
}
