//! Where everything of an executable stands.

use crate::members::Member;
use crate::sizes::Sizes;
use lk_tables::Class;

/// An output section that is not empty, as its header says it (System V gABI, "Sections").
#[derive(Clone, Copy, Debug, PartialEq, Eq)]
pub struct OutputSection<'a> {
    /// Its name.
    pub name: &'a [u8],
    /// Its class.
    pub class: Class,
    /// Its type: NOBITS in a class without bits, else that of its first member.
    pub sh_type: u32,
    /// The flags of its members together, of those that an output section keeps: WRITE, ALLOC, EXECINSTR and TLS.
    pub flags: u64,
    /// Its first address.
    pub address: u64,
    /// Bytes, to the end of its last member.
    pub size: u64,
    /// Alignment in bytes.
    pub align: u64,
    /// How many members it has, which stand side by side in the list of those with bits, or without.
    pub count: u64,
}

/// Where an output section is, whether it is empty or not.
#[derive(Clone, Copy, Debug, PartialEq, Eq)]
pub struct OutputPlace<'a> {
    /// Its name.
    pub name: &'a [u8],
    /// Its class.
    pub class: Class,
    /// Its first address.
    pub start: u64,
    /// Its end; the first address, if it is empty.
    pub end: u64,
}

/// Where the segments start and end (System V gABI, "Program Header"). All are addresses, but for the counts and the alignment.
#[derive(Clone, Copy, Debug, PartialEq, Eq)]
pub struct Bounds {
    /// Whether a member that is executed has a byte, so that there is a segment for them.
    pub has_rx: bool,
    /// Whether a member that is written, or a thread-local one with bits, has a byte, so that there is a segment for them.
    pub has_rw: bool,
    /// Whether a thread-local member has a byte, so that there is a segment for them.
    pub has_tls: bool,
    /// Whether a thread-local member with bits has a byte.
    pub has_tls_bits: bool,
    /// Whether an FDE is written, so that there are `.eh_frame` and `.eh_frame_hdr`, which have a segment of their own.
    pub has_frames: bool,
    /// How many program headers there are: that of the first segment, those of the four above, that of the stack.
    pub headers: u64,
    /// The end of the file header and the program headers, which stand at `IMAGE_BASE`.
    pub headers_end: u64,
    /// The start of `.eh_frame_hdr`, which stands in the class R after its other output sections.
    pub frame_header: u64,
    /// Its end.
    pub frame_header_end: u64,
    /// The start of `.eh_frame`, which stands after it; `IMAGE_BASE` where no FDE is written.
    pub frames: u64,
    /// Its end.
    pub frames_end: u64,
    /// The cursor after the class R.
    pub r_end: u64,
    /// The cursor before RX, at a multiple of `PAGE`.
    pub rx_start: u64,
    /// The cursor after RX.
    pub rx_end: u64,
    /// The cursor before the thread-local classes, at a multiple of `PAGE`: the segment that is written starts here.
    pub rw_start: u64,
    /// The start of the first thread-local output section that is not empty, 0 if there is none: the thread pointer counts from it.
    pub tls_start: u64,
    /// The cursor after thread-local bits, where RW bits starts too.
    pub tls_bits_end: u64,
    /// The cursor after thread-local nobits.
    pub tls_end: u64,
    /// The greatest alignment of a thread-local member, in bytes, at least 1.
    pub tls_align: u64,
    /// The cursor after RW bits, where RW nobits starts.
    pub bits_end: u64,
    /// The cursor after RW nobits.
    pub nobits_end: u64,
    /// The greatest end of an output section that is not empty and has bytes in the file, or of the headers.
    pub file_end: u64,
    /// The greatest end of an output section that is not empty and not of thread-local nobits, or of the headers.
    pub image_end: u64,
}

/// Where everything stands.
#[derive(Debug, Drop)]
pub struct Layout<'a> {
    /// The output sections that are not empty, in order of their classes and addresses.
    pub outputs: Vec<OutputSection<'a>>,
    /// The members of those in classes with bytes in the file, in order of address.
    pub members: Vec<Member>,
    /// The members of those in classes without bytes in the file: first the thread-local ones, then the others, each in order of address.
    pub nobits_members: Vec<Member>,
    /// Where all output sections are, the empty ones too, in order of their classes and addresses.
    pub places: Vec<OutputPlace<'a>>,
    /// By section number the first address of each section that is its own leader; 0 for each other.
    pub starts: Vec<u64>,
    /// The first address of each pool.
    pub pools: Vec<u64>,
    /// The first address of the linker's global offset table.
    pub got: u64,
    /// By section number where each section loses bytes.
    pub sizes: Sizes,
    /// The program headers and the segments.
    pub bounds: Bounds,
}
