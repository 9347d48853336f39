//! The names of the ABI (System V gABI; RISC-V ELF psABI), and the few sizes on which every pass agrees.

// The file header (gABI, "ELF Header").

/// The file's class: 64 bits (`e_ident[EI_CLASS]`).
pub const ELFCLASS64: u8 = 2;
/// The lowest byte first (`e_ident[EI_DATA]`).
pub const ELFDATA2LSB: u8 = 1;
/// The one version there is (`e_ident[EI_VERSION]`, `e_version`).
pub const EV_CURRENT: u8 = 1;
/// A relocatable object (`e_type`).
pub const ET_REL: u16 = 1;
/// An executable (`e_type`).
pub const ET_EXEC: u16 = 2;
/// RISC-V (`e_machine`).
pub const EM_RISCV: u16 = 243;
/// Bytes of the file header (`Elf64_Ehdr`).
pub const EHDR_SIZE: u64 = 64;
/// Bytes of a section header (`Elf64_Shdr`).
pub const SHDR_SIZE: u64 = 64;
/// Bytes of a program header (`Elf64_Phdr`).
pub const PHDR_SIZE: u64 = 56;
/// Bytes of a symbol's entry (`Elf64_Sym`).
pub const SYM_SIZE: u64 = 24;
/// Bytes of a relocation's entry (`Elf64_Rela`).
pub const RELA_SIZE: u64 = 24;

// Flags of the code (psABI, "File Header", e_flags).

/// The code has compressed instructions.
pub const EF_RISCV_RVC: u32 = 1;
/// Which registers calls pass floating-point numbers in.
pub const EF_RISCV_FLOAT_ABI: u32 = 6;
/// Of the bits for floating point: registers that hold double precision.
pub const EF_RISCV_FLOAT_ABI_DOUBLE: u32 = 4;
/// The code has 16 registers alone.
pub const EF_RISCV_RVE: u32 = 8;
/// The code needs the memory model TSO.
pub const EF_RISCV_TSO: u32 = 16;

// Section types (gABI, "Section Header Table", sh_type).

/// No section.
pub const SHT_NULL: u32 = 0;
/// Code or data.
pub const SHT_PROGBITS: u32 = 1;
/// The symbol table.
pub const SHT_SYMTAB: u32 = 2;
/// A string table.
pub const SHT_STRTAB: u32 = 3;
/// Relocations with addends.
pub const SHT_RELA: u32 = 4;
/// Notes.
pub const SHT_NOTE: u32 = 7;
/// Zero bytes, which the file does not have.
pub const SHT_NOBITS: u32 = 8;
/// Relocations without addends.
pub const SHT_REL: u32 = 9;
/// Functions to call at the start.
pub const SHT_INIT_ARRAY: u32 = 14;
/// Functions to call at the end.
pub const SHT_FINI_ARRAY: u32 = 15;
/// Functions to call before all others.
pub const SHT_PREINIT_ARRAY: u32 = 16;
/// A section group.
pub const SHT_GROUP: u32 = 17;
/// Section indexes of symbols that do not fit into a symbol's entry.
pub const SHT_SYMTAB_SHNDX: u32 = 18;

// Section flags (gABI, "Section Header Table", sh_flags).

/// Written while the program runs.
pub const SHF_WRITE: u64 = 0x1;
/// In memory while the program runs.
pub const SHF_ALLOC: u64 = 0x2;
/// Instructions.
pub const SHF_EXECINSTR: u64 = 0x4;
/// Equal elements may be written once.
pub const SHF_MERGE: u64 = 0x10;
/// The elements are strings that a zero character ends.
pub const SHF_STRINGS: u64 = 0x20;
/// sh_info names a section.
pub const SHF_INFO_LINK: u64 = 0x40;
/// Stands in the order of the section that sh_link names.
pub const SHF_LINK_ORDER: u64 = 0x80;
/// A member of a section group.
pub const SHF_GROUP: u64 = 0x200;
/// Thread-local.
pub const SHF_TLS: u64 = 0x400;
/// Compressed.
pub const SHF_COMPRESSED: u64 = 0x800;
/// Kept by garbage collection.
pub const SHF_GNU_RETAIN: u64 = 0x20_0000;
/// Left out of an executable.
pub const SHF_EXCLUDE: u64 = 0x8000_0000;

// Section groups (gABI, "Section Groups").

/// Bytes of a word (`Elf64_Word`): a group is an array of these.
pub const WORD_SIZE: u64 = 4;
/// A flag word of this value: of the groups of one signature only one stays.
pub const GRP_COMDAT: u32 = 1;

// Section indexes (gABI, "Special Sections", st_shndx).

/// No section.
pub const SHN_UNDEF: u16 = 0;
/// The first reserved index.
pub const SHN_LORESERVE: u16 = 0xff00;
/// A number, in no section.
pub const SHN_ABS: u16 = 0xfff1;
/// A COMMON symbol, which the link gives room.
pub const SHN_COMMON: u16 = 0xfff2;
/// The index stands elsewhere.
pub const SHN_XINDEX: u16 = 0xffff;

// Symbol bindings (gABI, "Symbol Table", ELF64_ST_BIND).

/// Seen in its file alone.
pub const STB_LOCAL: u8 = 0;
/// Seen by all files.
pub const STB_GLOBAL: u8 = 1;
/// Seen by all files, and weaker than a GLOBAL symbol.
pub const STB_WEAK: u8 = 2;
/// As GLOBAL, and one in a whole process.
pub const STB_GNU_UNIQUE: u8 = 10;

// Symbol types (gABI, "Symbol Table", ELF64_ST_TYPE).

/// No type.
pub const STT_NOTYPE: u8 = 0;
/// Data.
pub const STT_OBJECT: u8 = 1;
/// A function.
pub const STT_FUNC: u8 = 2;
/// A section.
pub const STT_SECTION: u8 = 3;
/// The source's name.
pub const STT_FILE: u8 = 4;
/// A COMMON symbol.
pub const STT_COMMON: u8 = 5;
/// Thread-local data.
pub const STT_TLS: u8 = 6;
/// A function that chooses a function.
pub const STT_GNU_IFUNC: u8 = 10;

// Program headers (gABI, "Program Header").

/// A segment that is loaded.
pub const PT_LOAD: u32 = 1;
/// The segment of thread-local data.
pub const PT_TLS: u32 = 7;
/// The table by which unwind records are found.
pub const PT_GNU_EH_FRAME: u32 = 0x6474_e550;
/// The stack's flags.
pub const PT_GNU_STACK: u32 = 0x6474_e551;
/// Executed.
pub const PF_X: u32 = 1;
/// Written.
pub const PF_W: u32 = 2;
/// Read.
pub const PF_R: u32 = 4;

// Kinds of relocations (psABI, "Relocations", r_type).

/// Nothing is written.
pub const R_RISCV_NONE: u32 = 0;
/// A number of 32 bits.
pub const R_RISCV_32: u32 = 1;
/// A number of 64 bits.
pub const R_RISCV_64: u32 = 2;
/// The displacement of a branch.
pub const R_RISCV_BRANCH: u32 = 16;
/// The displacement of `jal`.
pub const R_RISCV_JAL: u32 = 17;
/// A call by `auipc` and `jalr`; an older name of `R_RISCV_CALL_PLT`.
pub const R_RISCV_CALL: u32 = 18;
/// A call by `auipc` and `jalr`.
pub const R_RISCV_CALL_PLT: u32 = 19;
/// The upper part of the distance to an entry of the GOT.
pub const R_RISCV_GOT_HI20: u32 = 20;
/// The upper part of the distance to an entry of the GOT that holds an offset in thread-local storage.
pub const R_RISCV_TLS_GOT_HI20: u32 = 21;
/// The upper part of the distance to the two entries of the GOT of the general dynamic model.
pub const R_RISCV_TLS_GD_HI20: u32 = 22;
/// The upper part of a distance.
pub const R_RISCV_PCREL_HI20: u32 = 23;
/// The lower part of a distance, in an I-type instruction.
pub const R_RISCV_PCREL_LO12_I: u32 = 24;
/// The lower part of a distance, in a store.
pub const R_RISCV_PCREL_LO12_S: u32 = 25;
/// The upper part of an address.
pub const R_RISCV_HI20: u32 = 26;
/// The lower part of an address, in an I-type instruction.
pub const R_RISCV_LO12_I: u32 = 27;
/// The lower part of an address, in a store.
pub const R_RISCV_LO12_S: u32 = 28;
/// The upper part of an offset in thread-local storage.
pub const R_RISCV_TPREL_HI20: u32 = 29;
/// The lower part of an offset in thread-local storage, in an I-type instruction.
pub const R_RISCV_TPREL_LO12_I: u32 = 30;
/// The lower part of an offset in thread-local storage, in a store.
pub const R_RISCV_TPREL_LO12_S: u32 = 31;
/// The addition of the thread pointer to an upper part, which stays as it is.
pub const R_RISCV_TPREL_ADD: u32 = 32;
/// A byte that the target's address is added to.
pub const R_RISCV_ADD8: u32 = 33;
/// Two bytes that the target's address is added to.
pub const R_RISCV_ADD16: u32 = 34;
/// Four bytes that the target's address is added to.
pub const R_RISCV_ADD32: u32 = 35;
/// Eight bytes that the target's address is added to.
pub const R_RISCV_ADD64: u32 = 36;
/// A byte that the target's address is subtracted from.
pub const R_RISCV_SUB8: u32 = 37;
/// Two bytes that the target's address is subtracted from.
pub const R_RISCV_SUB16: u32 = 38;
/// Four bytes that the target's address is subtracted from.
pub const R_RISCV_SUB32: u32 = 39;
/// Eight bytes that the target's address is subtracted from.
pub const R_RISCV_SUB64: u32 = 40;
/// Nops, of which as many stay as the alignment of what follows needs.
pub const R_RISCV_ALIGN: u32 = 43;
/// The displacement of `c.beqz` or `c.bnez`.
pub const R_RISCV_RVC_BRANCH: u32 = 44;
/// The displacement of `c.j`.
pub const R_RISCV_RVC_JUMP: u32 = 45;
/// The instruction at this place may be shortened.
pub const R_RISCV_RELAX: u32 = 51;
/// The low six bits of a byte, which the target's address is subtracted from.
pub const R_RISCV_SUB6: u32 = 52;
/// The low six bits of a byte.
pub const R_RISCV_SET6: u32 = 53;
/// A byte.
pub const R_RISCV_SET8: u32 = 54;
/// Two bytes.
pub const R_RISCV_SET16: u32 = 55;
/// Four bytes.
pub const R_RISCV_SET32: u32 = 56;
/// A distance of 32 bits.
pub const R_RISCV_32_PCREL: u32 = 57;
/// The distance to a function, of 32 bits.
pub const R_RISCV_PLT32: u32 = 59;
/// The first part of a pair: the address that a distance as a ULEB128 number goes to.
pub const R_RISCV_SET_ULEB128: u32 = 60;
/// The second part of a pair: the address that a distance as a ULEB128 number comes from.
pub const R_RISCV_SUB_ULEB128: u32 = 61;

// The project's own sizes.

/// The address at which the executable's first byte stands in memory.
pub const IMAGE_BASE: u64 = 0x1_0000;
/// Bytes of a page: segments start at a multiple of it.
pub const PAGE: u64 = 4096;
/// The most bytes of an input file.
pub const FILE_MAX: u64 = 0x7fff_ffff;
/// The most section headers of a file.
pub const SECTIONS_MAX: u64 = 0x1000_0000;
/// The most bytes that the value of a relocation is put into: those of a ULEB128 number.
pub const PLACE_MAX: u64 = 10;
/// The greatest alignment.
pub const ALIGN_MAX: u64 = 0x10_0000;
/// The most bytes of a NOBITS section or of a COMMON symbol.
pub const NOBITS_MAX: u64 = 0x1_0000_0000;
