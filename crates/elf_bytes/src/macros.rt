//! Objects and executables as rows: each macro writes the value of one struct, its usual fields by their order and the others by name. After
//! `BASE =>` stand the fields in which a value differs from another. What stands after a `;` keeps its lines, so a row stays on one.

/// A struct of this name: all its fields, or those in which it differs from another.
#[macro_export]
macro_rules! record {
    ($name:ident; $($field:ident: $value:expr),+) => {
        $name { $($field: $value),+ }
    };
    ($name:ident, $base:expr => $($field:ident: $value:expr),+) => {
        $name { $($field: $value,)+ ..$base }
    };
}

/// A relocation: its offset, its type, the number of its symbol and its addend.
#[macro_export]
macro_rules! reloc {
    ($offset:expr, $kind:expr, $symbol:expr, $addend:expr) => {
        $crate::Reloc { offset: $offset, kind: $kind, symbol: $symbol, addend: $addend }
    };
    ($base:expr => $($field:ident: $value:expr),+) => {
        $crate::Reloc { $($field: $value,)+ ..$base }
    };
}

/// A symbol: its name, binding, type, section, value and size.
#[macro_export]
macro_rules! symbol {
    ($name:expr, $binding:expr, $sort:expr, $section:expr, $value:expr, $size:expr) => {
        $crate::Symbol { name: $name, binding: $binding, sort: $sort, section: $section, value: $value, size: $size }
    };
    ($base:expr => $($field:ident: $value:expr),+) => {
        $crate::Symbol { $($field: $value,)+ ..$base }
    };
}

/// A section: its name, type, flags and alignment; its bytes; and other fields by name, its relocations among them.
#[macro_export]
macro_rules! section {
    ($name:expr, $sort:expr, $flags:expr, $align:expr; $bytes:expr $(; $($field:ident: $value:expr),+)?) => {
        $crate::Section { name: $name, sort: $sort, flags: $flags, align: $align, bytes: $bytes, $($($field: $value,)+)? ..$crate::NO_SECTION }
    };
    ($base:expr => $($field:ident: $value:expr),+) => {
        $crate::Section { $($field: $value,)+ ..$base }
    };
}

/// The section of code, `.text` at a multiple of 4: its bytes, and its relocations.
#[macro_export]
macro_rules! text {
    ($bytes:expr $(; $($reloc:expr),+)?) => {
        $crate::Section { name: b".text", sort: 1, flags: 6, align: 4, bytes: $bytes, relocs: &[$($($reloc),+)?], ..$crate::NO_SECTION }
    };
}

/// The section of data that may be written, `.data` at a multiple of 8: its bytes, and its relocations.
#[macro_export]
macro_rules! data {
    ($bytes:expr $(; $($reloc:expr),+)?) => {
        $crate::Section { name: b".data", sort: 1, flags: 3, align: 8, bytes: $bytes, relocs: &[$($($reloc),+)?], ..$crate::NO_SECTION }
    };
}

/// An object: its flags, where it has any; its sections; and its symbols.
#[macro_export]
macro_rules! object {
    ([$($section:expr),* $(,)?]; [$($symbol:expr),* $(,)?]) => {
        $crate::Object { flags: 0, sections: &[$($section),*], symbols: &[$($symbol),*] }
    };
    ($flags:expr; [$($section:expr),* $(,)?]; [$($symbol:expr),* $(,)?]) => {
        $crate::Object { flags: $flags, sections: &[$($section),*], symbols: &[$($symbol),*] }
    };
    ($base:expr => $($field:ident: $value:expr),+) => {
        $crate::Object { $($field: $value,)+ ..$base }
    };
}

/// An executable: the fields in which it differs from another; or all fields, after a `;`.
#[macro_export]
macro_rules! image {
    (; $($field:ident: $value:expr),+) => {
        $crate::Image { $($field: $value),+ }
    };
    ($base:expr => $($field:ident: $value:expr),+) => {
        $crate::Image { $($field: $value,)+ ..$base }
    };
}

/// The symbol table of an executable: its offset, the names of the symbols and of the sections; and the symbols from number 1 on.
#[macro_export]
macro_rules! listed {
    ($offset:expr, $strings:expr, $names:expr; $($symbol:expr),+) => {
        Some($crate::Listed { offset: $offset, symbols: &[$($symbol),+], strings: $strings, names: $names })
    };
}
