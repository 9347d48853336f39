//! The output section to which a section goes, and its place among the members of it, by its name alone.

ghost use Rattle.std.specs.Prelude.{◌≡◌, ◌≤◌, length};
ghost use Rattle.lk_tables.specs.OutputNames.{gathered, is_init_or_fini, is_numbered, is_under, number_of, output_name, priority_of, texts};

const PREFIXES: [&[u8]; 16] = [
    b".text",
    b".rodata",
    b".srodata",
    b".data.rel.ro",
    b".data",
    b".bss",
    b".sdata",
    b".sbss",
    b".tdata",
    b".tbss",
    b".preinit_array",
    b".init_array",
    b".fini_array",
    b".ctors",
    b".dtors",
    b".gcc_except_table",
];

/// The name of the output section to which a section of this name goes.
#[tactic(auto, unfolding(crate::specs::OutputNames::output_name))]
pub fn output_name<'a>(name: &'a [u8]) -> &'a [u8]
    ensures { result.now ≡ output_name name.now }
{
    if name == b"COMMON".as_slice() {
        return b".bss";
    }
    gathered(&PREFIXES, name)
}

/// Whether sections of a name are put together to functions to call at the start and at the end.
pub fn is_init_or_fini(name: &[u8]) -> bool
    ensures { result ≡ is_init_or_fini name.now }
{
    name == b".init".as_slice() || name == b".fini".as_slice()
}

/// The priority of a section among the members of its output section: N for a name `.init_array.N` or `.fini_array.N` of one to
/// five digits, and 65536, after most, for each other.
#[tactic(auto, unfolding(crate::specs::OutputNames::priority_of))]
pub fn priority_of(name: &[u8]) -> u32
    ensures { result ≡ priority_of name.now }
{
    if !is_numbered(name) {
        return 65536;
    }
    number_of(&name[12..]).unwrap_or(65536)
}

// The first of these prefixes that fits a name, or the name itself.
#[tactic(auto, unfolding(crate::specs::OutputNames::gathered))]
fn gathered<'a>(prefixes: &[&'a [u8]], name: &'a [u8]) -> &'a [u8]
    ensures { result.now ≡ gathered (texts prefixes.now) name.now }
{
    for prefix in prefixes {
        if is_under(name, prefix) {
            return prefix;
        }
    }
    name
}

// Whether a name is `prefix`, or `prefix` with a dot and more after it. The dot is looked for first: most names have none there.
#[tactic(auto, unfolding(crate::specs::OutputNames::is_under))]
fn is_under(name: &[u8], prefix: &[u8]) -> bool
    ensures { result ≡ is_under prefix.now name.now }
{
    if name == prefix {
        return true;
    }
    prefix.len() < name.len()
        && name[prefix.len()] == b'.'
        && prefix.len() < name.len() - 1
        && name.starts_with(prefix)
}

// Whether a name is one of those that may end in a priority, with one to five bytes in its place. Its length is looked at first: most names
// are too short.
fn is_numbered(name: &[u8]) -> bool
    ensures { result ≡ is_numbered name.now }
{
    13 <= name.len()
        && name.len() <= 17
        && (is_under(name, b".init_array") || is_under(name, b".fini_array"))
}

// The number that at most five decimal digits write.
fn number_of(digits: &[u8]) -> Option<u32>
    requires { length digits.now ≤ 5 }
    ensures { result ≡ number_of digits.now 0 }
{
    let mut number: u32 = 0;
    for digit in digits {
        if !(b'0'..=b'9').contains(digit) {
            return None;
        }
        number = 10 * number + (*digit - b'0') as u32;
    }
    Some(number)
}
