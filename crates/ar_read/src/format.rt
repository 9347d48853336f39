//! The names of the format (System V ar format; `<ar.h>`).

/// Bytes of the text that an archive starts with.
pub const SARMAG: usize = 8;

// A header (`struct ar_hdr`): name, date, uid, gid, mode, size and two last bytes.

/// Bytes of a header.
pub const AR_HDR_LEN: u64 = 60;
/// Bytes of its name, which stands first (`ar_name`).
pub const AR_NAME_LEN: usize = 16;
/// Where its size stands (`ar_size`).
pub const AR_SIZE_AT: usize = 48;
/// Bytes of its size.
pub const AR_SIZE_LEN: usize = 10;
/// Where its two last bytes stand (`ar_fmag`).
pub const AR_FMAG_AT: usize = 58;
/// The first of the two.
pub const AR_FMAG_FIRST: u8 = b'`';
/// The second of the two.
pub const AR_FMAG_SECOND: u8 = b'\n';

// Bytes of its fields.

/// Fills up a field.
pub const SPACE: u8 = b' ';
/// Ends a name.
pub const SLASH: u8 = b'/';
/// The least digit.
pub const DIGIT_0: u8 = b'0';
