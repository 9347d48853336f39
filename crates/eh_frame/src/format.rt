//! The names of the format (LSB Core, "Exception Frames"; DWARF, "Exception Header Encoding").

/// Marks a Length as that of a record of the extended form, which is not linked.
pub const EXTENDED_LENGTH: u32 = 0xffffffff;
/// Bytes of the Length.
pub const LENGTH_SIZE: u64 = 4;
/// The least Length of a record: its CIE ID or CIE Pointer.
pub const RECORD_LEN_MIN: u32 = 4;
/// The least Length of an FDE: its CIE Pointer, PC Begin and PC Range.
pub const FDE_LEN_MIN: u32 = 12;
/// Where an FDE has its PC Begin, in bytes from its start.
pub const PC_BEGIN_AT: u64 = 8;

// The bytes that the table of functions starts with.

/// Its version.
pub const HEADER_VERSION: u8 = 1;
/// The address of `.eh_frame` is a signed number of 4 bytes, from its own place on (`DW_EH_PE_pcrel | DW_EH_PE_sdata4`).
pub const DW_EH_PE_PCREL_SDATA4: u8 = 0x1b;
/// The number of functions has 4 bytes (`DW_EH_PE_udata4`).
pub const DW_EH_PE_UDATA4: u8 = 0x03;
/// The table's addresses are signed numbers of 4 bytes, from the table's own start on (`DW_EH_PE_datarel | DW_EH_PE_sdata4`).
pub const DW_EH_PE_DATAREL_SDATA4: u8 = 0x3b;
