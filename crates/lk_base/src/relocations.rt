//! The kinds of relocations (RISC-V ELF psABI, "Relocations"): one table.

ghost use Rattle.std.specs.Prelude.{◌≡◌, ◌≤◌, None, is_some, IfSome, slice_index_or};
ghost use Rattle.lk_base.specs.RelocKinds.{IsTable, fills_field, goes_by_got, has_value, is_frame_kind, is_linked, is_lower, is_uleb, is_upper, kind_of, kind_view, moves_bytes, names_a_symbol, unknown};

use crate::abi::{
    R_RISCV_32, R_RISCV_32_PCREL, R_RISCV_64, R_RISCV_ADD8, R_RISCV_ADD16, R_RISCV_ADD32,
    R_RISCV_ADD64, R_RISCV_ALIGN, R_RISCV_CALL, R_RISCV_CALL_PLT, R_RISCV_GOT_HI20, R_RISCV_NONE,
    R_RISCV_PCREL_HI20, R_RISCV_RELAX, R_RISCV_SET_ULEB128, R_RISCV_SET6, R_RISCV_SET8,
    R_RISCV_SET16, R_RISCV_SET32, R_RISCV_SUB_ULEB128, R_RISCV_SUB6, R_RISCV_SUB8, R_RISCV_SUB16,
    R_RISCV_SUB32, R_RISCV_SUB64, R_RISCV_TLS_GD_HI20, R_RISCV_TLS_GOT_HI20,
};

/// What a relocation of a kind computes, as the psABI's table has it: S is its symbol's address, A its addend, P its
/// place's address, G the address of the symbol's entry of the GOT, T the start of thread-local storage, and V what its
/// place holds.
#[derive(Clone, Copy, Debug, PartialEq, Eq)]
pub enum Calculation {
    /// Nothing is written.
    Nothing,
    /// Nothing is written, and there is no symbol: the instruction at the place may be shortened.
    Hint,
    /// Nothing is written, and there is no symbol: the place is nops for an alignment, as many bytes as its addend.
    Padding,
    /// S + A
    Address,
    /// S + A - P
    Distance,
    /// The value of the upper part at S.
    Partner,
    /// G + A - P
    GotDistance,
    /// S + A - T
    ThreadOffset,
    /// V + S + A
    Increase,
    /// V - S - A; at the end of a pair V is S + A of the pair's first part
    Decrease,
}

/// Which values a field takes.
#[derive(Clone, Copy, Debug, PartialEq, Eq)]
pub enum Rule {
    /// Every value: the field holds its low bits.
    Any,
    /// The values from the first to the second.
    FromTo(i64, i64),
    /// The even values from the first to the second.
    EvenFromTo(i64, i64),
}

/// How a place holds its value.
#[derive(Clone, Copy, Debug, PartialEq, Eq)]
pub enum Format {
    /// No bit of it.
    Empty,
    /// The upper immediate of `lui` and `auipc`.
    U,
    /// The immediate of `addi`, of loads and of `jalr`.
    I,
    /// The immediate of stores.
    S,
    /// The displacement of branches.
    B,
    /// The displacement of `jal`.
    J,
    /// The displacement of `c.beqz` and `c.bnez`.
    Cb,
    /// The displacement of `c.j`.
    Cj,
    /// `auipc` and the instruction after it: U and then I.
    Call,
    /// A number of one byte.
    Byte,
    /// A number of two bytes.
    Half,
    /// A number of four bytes.
    Word,
    /// A number of eight bytes.
    Doubleword,
    /// A number of six bits, the low ones of a byte.
    LowSix,
}

/// The properties of a kind of relocation.
#[derive(Clone, Copy, Debug, PartialEq, Eq)]
pub struct Kind {
    /// The bytes of its place; 0 if nothing is written, and 1 if the place is a ULEB128 number, which has one byte at least.
    pub width: u64,
    pub calculation: Calculation,
    pub rule: Rule,
    pub format: Format,
}

macro_rules! kind {
    ($width:literal, $calculation:ident, $rule:expr, $format:ident) => {
        Some(Kind {
            width: $width,
            calculation: Calculation::$calculation,
            rule: $rule,
            format: Format::$format,
        })
    };
}

// What an upper part and a signed lower part reach together.
const FAR: Rule = Rule::FromTo(-0x8000_0800, 0x7fff_f7ff);

// What stands for a number that has no line: nothing is written.
const NO_KIND: Kind = Kind {
    width: 0,
    calculation: Calculation::Nothing,
    rule: Rule::Any,
    format: Format::Empty,
};

// The lines by number, 0 first. The kinds that a dynamic linker does, and the numbers that are no kind, have none.
const LINES: &[Option<Kind>] = &[
    kind!(0, Nothing, Rule::Any, Empty), // R_RISCV_NONE
    kind!(4, Address, Rule::FromTo(-2147483648, 4294967295), Word), // R_RISCV_32
    kind!(8, Address, Rule::Any, Doubleword), // R_RISCV_64
    None, // R_RISCV_RELATIVE
    None, // R_RISCV_COPY
    None, // R_RISCV_JUMP_SLOT
    None, // R_RISCV_TLS_DTPMOD32
    None, // R_RISCV_TLS_DTPMOD64
    None, // R_RISCV_TLS_DTPREL32
    None, // R_RISCV_TLS_DTPREL64
    None, // R_RISCV_TLS_TPREL32
    None, // R_RISCV_TLS_TPREL64
    None, // R_RISCV_TLSDESC
    None, // no kind
    None, // no kind
    None, // no kind
    kind!(4, Distance, Rule::EvenFromTo(-4096, 4094), B), // R_RISCV_BRANCH
    kind!(4, Distance, Rule::EvenFromTo(-1048576, 1048574), J), // R_RISCV_JAL
    kind!(8, Distance, FAR, Call), // R_RISCV_CALL
    kind!(8, Distance, FAR, Call), // R_RISCV_CALL_PLT
    kind!(4, GotDistance, FAR, U), // R_RISCV_GOT_HI20
    kind!(4, GotDistance, FAR, U), // R_RISCV_TLS_GOT_HI20
    kind!(4, GotDistance, FAR, U), // R_RISCV_TLS_GD_HI20
    kind!(4, Distance, FAR, U), // R_RISCV_PCREL_HI20
    kind!(4, Partner, Rule::Any, I), // R_RISCV_PCREL_LO12_I
    kind!(4, Partner, Rule::Any, S), // R_RISCV_PCREL_LO12_S
    kind!(4, Address, FAR, U), // R_RISCV_HI20
    kind!(4, Address, Rule::Any, I), // R_RISCV_LO12_I
    kind!(4, Address, Rule::Any, S), // R_RISCV_LO12_S
    kind!(4, ThreadOffset, FAR, U), // R_RISCV_TPREL_HI20
    kind!(4, ThreadOffset, Rule::Any, I), // R_RISCV_TPREL_LO12_I
    kind!(4, ThreadOffset, Rule::Any, S), // R_RISCV_TPREL_LO12_S
    kind!(0, Nothing, Rule::Any, Empty), // R_RISCV_TPREL_ADD
    kind!(1, Increase, Rule::Any, Byte), // R_RISCV_ADD8
    kind!(2, Increase, Rule::Any, Half), // R_RISCV_ADD16
    kind!(4, Increase, Rule::Any, Word), // R_RISCV_ADD32
    kind!(8, Increase, Rule::Any, Doubleword), // R_RISCV_ADD64
    kind!(1, Decrease, Rule::Any, Byte), // R_RISCV_SUB8
    kind!(2, Decrease, Rule::Any, Half), // R_RISCV_SUB16
    kind!(4, Decrease, Rule::Any, Word), // R_RISCV_SUB32
    kind!(8, Decrease, Rule::Any, Doubleword), // R_RISCV_SUB64
    None, // no kind
    None, // no kind
    kind!(0, Padding, Rule::Any, Empty), // R_RISCV_ALIGN
    kind!(2, Distance, Rule::EvenFromTo(-256, 254), Cb), // R_RISCV_RVC_BRANCH
    kind!(2, Distance, Rule::EvenFromTo(-2048, 2046), Cj), // R_RISCV_RVC_JUMP
    None, // no kind
    None, // no kind
    None, // no kind
    None, // no kind
    None, // no kind
    kind!(0, Hint, Rule::Any, Empty), // R_RISCV_RELAX
    kind!(1, Decrease, Rule::Any, LowSix), // R_RISCV_SUB6
    kind!(1, Address, Rule::Any, LowSix), // R_RISCV_SET6
    kind!(1, Address, Rule::Any, Byte), // R_RISCV_SET8
    kind!(2, Address, Rule::Any, Half), // R_RISCV_SET16
    kind!(4, Address, Rule::Any, Word), // R_RISCV_SET32
    kind!(4, Distance, Rule::FromTo(-2147483648, 2147483647), Word), // R_RISCV_32_PCREL
    None, // R_RISCV_IRELATIVE
    kind!(4, Distance, Rule::FromTo(-2147483648, 2147483647), Word), // R_RISCV_PLT32
    kind!(1, Nothing, Rule::Any, Empty), // R_RISCV_SET_ULEB128
    kind!(1, Decrease, Rule::Any, Empty), // R_RISCV_SUB_ULEB128
];

/// The kind of a number. If the table has no line for it, nothing is written.
pub fn kind_of(number: u32) -> Kind
    ensures line { kind_view result ≡ kind_of number }
    ensures few { result.width ≤ 8 }
{
    match line_of(number) {
        Some(kind) => kind,
        None => NO_KIND,
    }
}

// The line of a number: every kind that has one is linked.
fn line_of(number: u32) -> Option<Kind>
    ensures line { IfSome result (λ kind. kind_view kind ≡ kind_of number) }
    ensures few { IfSome result (λ kind. kind.width ≤ 8) }
    ensures none { result ≡ None → kind_of number ≡ unknown }
    ensures linked { is_some result ≡ is_linked number }
{
    line_in(LINES, number)
}

// The line of a number in a table of all lines.
fn line_in(lines: &[Option<Kind>], number: u32) -> Option<Kind>
    requires { IsTable lines.now }
    ensures line { IfSome result (λ kind. kind_view kind ≡ kind_of number) }
    ensures few { IfSome result (λ kind. kind.width ≤ 8) }
    ensures none { result ≡ None → kind_of number ≡ unknown }
    ensures linked { is_some result ≡ is_linked number }
{
    row_of(lines, number as usize)
}

// The row at a place of a table; none past its end.
fn row_of(lines: &[Option<Kind>], place: usize) -> Option<Kind>
    ensures { result ≡ slice_index_or lines.now place None }
{
    match lines.get(place) {
        Some(line) => *line,
        None => None,
    }
}

/// Whether the relocations of a kind put a value into a place.
#[tactic(auto, unfolding(crate::specs::RelocKinds::has_value))]
pub fn has_value(number: u32) -> bool
    ensures { result ≡ has_value number }
{
    !matches!(
        kind_of(number).calculation,
        Calculation::Nothing | Calculation::Hint | Calculation::Padding
    )
}

/// Whether the place of a kind is a ULEB128 number, which is as long as its bytes say.
#[tactic(auto, unfolding(crate::specs::RelocKinds::is_uleb))]
pub fn is_uleb(number: u32) -> bool
    ensures { result ≡ is_uleb number }
{
    matches!(number, R_RISCV_SET_ULEB128 | R_RISCV_SUB_ULEB128)
}

/// Whether the relocations of a kind put a value into the bits that the kind's field names.
#[tactic(auto, unfolding(crate::specs::RelocKinds::fills_field))]
pub fn fills_field(number: u32) -> bool
    ensures { result ≡ fills_field number }
{
    has_value(number) && !is_uleb(number)
}

/// Whether the relocations of a kind have a symbol.
#[tactic(auto, unfolding(crate::specs::RelocKinds::names_a_symbol))]
pub fn names_a_symbol(number: u32) -> bool
    ensures { result ≡ names_a_symbol number }
{
    !matches!(
        kind_of(number).calculation,
        Calculation::Hint | Calculation::Padding
    )
}

/// Whether what stands after the place of such a relocation may move.
#[tactic(auto, unfolding(crate::specs::RelocKinds::moves_bytes))]
pub fn moves_bytes(number: u32) -> bool
    ensures { result ≡ moves_bytes number }
{
    matches!(number, R_RISCV_CALL | R_RISCV_CALL_PLT | R_RISCV_ALIGN)
}

/// Whether a kind is the upper part of a distance, which a lower part's label names.
#[tactic(auto, unfolding(crate::specs::RelocKinds::is_upper))]
pub fn is_upper(number: u32) -> bool
    ensures { result ≡ is_upper number }
{
    matches!(
        number,
        R_RISCV_GOT_HI20 | R_RISCV_TLS_GOT_HI20 | R_RISCV_TLS_GD_HI20 | R_RISCV_PCREL_HI20
    )
}

/// Whether a kind is the lower part of a distance, whose symbol is the label of the upper part.
#[tactic(auto, unfolding(crate::specs::RelocKinds::is_lower))]
pub fn is_lower(number: u32) -> bool
    ensures { result ≡ is_lower number }
{
    matches!(kind_of(number).calculation, Calculation::Partner)
}

/// Whether a kind goes by the GOT.
#[tactic(auto, unfolding(crate::specs::RelocKinds::goes_by_got))]
pub fn goes_by_got(number: u32) -> bool
    ensures { result ≡ goes_by_got number }
{
    matches!(kind_of(number).calculation, Calculation::GotDistance)
}

/// Whether the relocations of unwind records may have this kind.
#[tactic(auto, unfolding(crate::specs::RelocKinds::is_frame_kind))]
pub fn is_frame_kind(number: u32) -> bool
    ensures { result ≡ is_frame_kind number }
{
    matches!(
        number,
        R_RISCV_NONE
            | R_RISCV_32
            | R_RISCV_64
            | R_RISCV_ADD8
            | R_RISCV_ADD16
            | R_RISCV_ADD32
            | R_RISCV_ADD64
            | R_RISCV_SUB8
            | R_RISCV_SUB16
            | R_RISCV_SUB32
            | R_RISCV_SUB64
            | R_RISCV_RELAX
            | R_RISCV_SUB6
            | R_RISCV_SET6
            | R_RISCV_SET8
            | R_RISCV_SET16
            | R_RISCV_SET32
            | R_RISCV_32_PCREL
    )
}

/// Whether the relocations of a kind are linked: those of each kind that has a line.
pub fn is_linked(number: u32) -> bool
    ensures { result ≡ is_linked number }
{
    line_of(number).is_some()
}
