//! The kinds of defects.

ghost use Rattle.std.specs.Prelude.{◌≡◌};
ghost use Rattle.lk_base.specs.Kinds.{code_of, names_entry, names_other_file, names_symbol, word_of};

/// What is wrong with an input, or with the inputs together. A line shows the variant's name and the word below.
#[derive(Clone, Copy, Debug, PartialEq, Eq)]
pub enum DefectKind {
    /// NotObject: the file does not start as an ELF file does.
    F01,
    /// BadHeader: the file header is cut off, or is not that of a relocatable RV64 object.
    F02,
    /// Outside: a table or a section's bytes end past the file.
    F03,
    /// BadSection: a section header that cannot be, or of a form that is not linked.
    F04,
    /// Compressed: a section of a live file is compressed.
    F05,
    /// BadArchive: a header, a long name or a member's bytes are not as the archive format has them.
    F06,
    /// Thin: a thin archive, which has no members' bytes.
    F07,
    /// Limit: more or larger than the limits of a link allow.
    F08,
    /// BadSymbol: a symbol whose binding, type, section or value cannot be.
    F09,
    /// BadName: a name that does not end inside its string table.
    F10,
    /// BadReloc: a relocation that names no symbol, meets another's bytes, ends past its section or stands in one without
    /// contents, or an addend that its kind does not take.
    F11,
    /// RelocKind: a relocation of a kind that is not linked.
    F12,
    /// BadGroup: a group section that cannot be.
    F13,
    /// BadUleb: a ULEB128 number that cannot hold what a relocation puts there.
    F14,
    /// BadAlignment: an alignment that is no power of two, or is too large.
    F15,
    /// FlagsClash: two live objects were made for different floating-point calls.
    F16,
    /// Ifunc: an indirect function.
    F17,
    /// BsdName: an archive member named in the BSD way.
    F18,
    /// BadFrame: a frame record that cannot be.
    F19,
    /// Duplicate: two strong definitions of one name.
    F20,
    /// NoEntry: nothing defines the entry symbol.
    F21,
    /// Undefined: a kept section refers to a name that nothing defines.
    F22,
    /// TooBig: the memory image passes its limit.
    F23,
    /// Range: a value does not fit into its relocation's field.
    F24,
    /// Odd: a value that has to be even is odd.
    F25,
    /// NoPartner: the lower part of a distance whose upper part does not stand at its label.
    F26,
    /// NopsShort: an alignment needs more bytes than its padding has, or an odd number of them.
    F27,
}

// Each kind by its word: all other code says these.

pub const NOT_OBJECT: DefectKind = DefectKind::F01;

pub const BAD_HEADER: DefectKind = DefectKind::F02;

pub const OUTSIDE: DefectKind = DefectKind::F03;

pub const BAD_SECTION: DefectKind = DefectKind::F04;

pub const COMPRESSED: DefectKind = DefectKind::F05;

pub const BAD_ARCHIVE: DefectKind = DefectKind::F06;

pub const THIN: DefectKind = DefectKind::F07;

pub const LIMIT: DefectKind = DefectKind::F08;

pub const BAD_SYMBOL: DefectKind = DefectKind::F09;

pub const BAD_NAME: DefectKind = DefectKind::F10;

pub const BAD_RELOC: DefectKind = DefectKind::F11;

pub const RELOC_KIND: DefectKind = DefectKind::F12;

pub const BAD_GROUP: DefectKind = DefectKind::F13;

pub const BAD_ULEB: DefectKind = DefectKind::F14;

pub const BAD_ALIGNMENT: DefectKind = DefectKind::F15;

pub const FLAGS_CLASH: DefectKind = DefectKind::F16;

pub const IFUNC: DefectKind = DefectKind::F17;

pub const BSD_NAME: DefectKind = DefectKind::F18;

pub const BAD_FRAME: DefectKind = DefectKind::F19;

pub const DUPLICATE: DefectKind = DefectKind::F20;

pub const NO_ENTRY: DefectKind = DefectKind::F21;

pub const UNDEFINED: DefectKind = DefectKind::F22;

pub const TOO_BIG: DefectKind = DefectKind::F23;

pub const RANGE: DefectKind = DefectKind::F24;

pub const ODD: DefectKind = DefectKind::F25;

pub const NO_PARTNER: DefectKind = DefectKind::F26;

pub const NOPS_SHORT: DefectKind = DefectKind::F27;

impl DefectKind {
    /// The variant's name, as a line shows it.
    pub fn code(self) -> &'static str
        ensures { result.now ≡ code_of self }
    {
        match self {
            DefectKind::F01 => "F01",
            DefectKind::F02 => "F02",
            DefectKind::F03 => "F03",
            DefectKind::F04 => "F04",
            DefectKind::F05 => "F05",
            DefectKind::F06 => "F06",
            DefectKind::F07 => "F07",
            DefectKind::F08 => "F08",
            DefectKind::F09 => "F09",
            DefectKind::F10 => "F10",
            DefectKind::F11 => "F11",
            DefectKind::F12 => "F12",
            DefectKind::F13 => "F13",
            DefectKind::F14 => "F14",
            DefectKind::F15 => "F15",
            DefectKind::F16 => "F16",
            DefectKind::F17 => "F17",
            DefectKind::F18 => "F18",
            DefectKind::F19 => "F19",
            DefectKind::F20 => "F20",
            DefectKind::F21 => "F21",
            DefectKind::F22 => "F22",
            DefectKind::F23 => "F23",
            DefectKind::F24 => "F24",
            DefectKind::F25 => "F25",
            DefectKind::F26 => "F26",
            DefectKind::F27 => "F27",
        }
    }

    /// The kind in one word, as a line shows it after the code.
    pub fn word(self) -> &'static str
        ensures { result.now ≡ word_of self }
    {
        match self {
            DefectKind::F01 => "NotObject",
            DefectKind::F02 => "BadHeader",
            DefectKind::F03 => "Outside",
            DefectKind::F04 => "BadSection",
            DefectKind::F05 => "Compressed",
            DefectKind::F06 => "BadArchive",
            DefectKind::F07 => "Thin",
            DefectKind::F08 => "Limit",
            DefectKind::F09 => "BadSymbol",
            DefectKind::F10 => "BadName",
            DefectKind::F11 => "BadReloc",
            DefectKind::F12 => "RelocKind",
            DefectKind::F13 => "BadGroup",
            DefectKind::F14 => "BadUleb",
            DefectKind::F15 => "BadAlignment",
            DefectKind::F16 => "FlagsClash",
            DefectKind::F17 => "Ifunc",
            DefectKind::F18 => "BsdName",
            DefectKind::F19 => "BadFrame",
            DefectKind::F20 => "Duplicate",
            DefectKind::F21 => "NoEntry",
            DefectKind::F22 => "Undefined",
            DefectKind::F23 => "TooBig",
            DefectKind::F24 => "Range",
            DefectKind::F25 => "Odd",
            DefectKind::F26 => "NoPartner",
            DefectKind::F27 => "NopsShort",
        }
    }

    /// Whether the line of a defect of this kind shows the name of the defect's symbol.
    pub fn names_symbol(self) -> bool
        ensures { result ≡ names_symbol self }
    {
        matches!(
            self,
            DefectKind::F20 | DefectKind::F22 | DefectKind::F24 | DefectKind::F25 | DefectKind::F26
        )
    }

    /// Whether the line of a defect of this kind shows the entry symbol's name.
    pub fn names_entry(self) -> bool
        ensures { result ≡ names_entry self }
    {
        matches!(self, DefectKind::F21)
    }

    /// Whether the line of a defect of this kind shows the name of another file.
    pub fn names_other_file(self) -> bool
        ensures { result ≡ names_other_file self }
    {
        matches!(self, DefectKind::F20)
    }
}
