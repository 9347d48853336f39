//! Names that the linker knows: those of output sections, and of its own symbols.

use lk_tables::{
    Edge, bound_section, edge_of, fixed_no, is_stop, output_name, start_no, start_of, stop_no,
    stop_of,
};

/// The name of a section, and that of its output section.
const OUTPUTS: &[(&[u8], &[u8])] = table![
    (b".text.hot", b".text"); (b".text.", b".text."); (b".textual", b".textual"); (b".data.rel.ro.local", b".data.rel.ro");
    (b".data.rel.ro", b".data.rel.ro"); (b".data.rel", b".data"); (b".rodata.str1.1", b".rodata"); (b".init_array.5", b".init_array");
    (b"COMMON", b".bss"); (b".comment", b".comment");
];

#[test]
fn names_of_output_sections(rt: HostRuntime) {
    for (name, output) in OUTPUTS {
        assert_eq!(rt; output_name(*name), *output);
    }
}

/// A fixed name, its number and what its address is.
type Row = (&'static [u8], u32, Edge);

const NAMES: &[Row] = table![
    (b"__ehdr_start", 0, Edge::ImageStart); (b"__rela_iplt_start", 1, Edge::ImageStart); (b"__rela_iplt_end", 2, Edge::ImageStart);
    (b"_etext", 3, Edge::CodeEnd); (b"etext", 4, Edge::CodeEnd); (b"_edata", 5, Edge::BitsEnd); (b"edata", 6, Edge::BitsEnd);
    (b"__bss_start", 7, Edge::BitsEnd); (b"_end", 8, Edge::NobitsEnd); (b"end", 9, Edge::NobitsEnd); (b"_GLOBAL_OFFSET_TABLE_", 10, Edge::Table);
    (b"__global_pointer$", 11, Edge::GlobalPointer); (b"__preinit_array_start", 12, Edge::PreinitStart);
    (b"__preinit_array_end", 13, Edge::PreinitEnd); (b"__init_array_start", 14, Edge::InitStart); (b"__init_array_end", 15, Edge::InitEnd);
    (b"__fini_array_start", 16, Edge::FiniStart); (b"__fini_array_end", 17, Edge::FiniEnd);
];

const UNFIXED: &[&[u8]] = &[b"__end", b"_en", b"", b"__start_COMMON"];

#[test]
fn fixed_names(rt: HostRuntime) {
    for (name, number, edge) in NAMES {
        assert_eq!(rt; fixed_no(*name), Some(*number));
        assert_eq!(rt; edge_of(*number), *edge);
    }
    for name in UNFIXED {
        assert_eq!(rt; fixed_no(*name), None);
    }
}

/// A name, and the identifiers of C that follow `__start_` and `__stop_`.
type Edges = (&'static [u8], Option<&'static [u8]>, Option<&'static [u8]>);

const EDGES: &[Edges] = table![
    (b"__start_COMMON", Some(b"COMMON"), None); (b"__stop_COMMON", None, Some(b"COMMON")); (b"__start__2", Some(b"_2"), None);
    (b"__stop_stop_2", None, Some(b"stop_2")); (b"__start_2", None, None); (b"__start_", None, None); (b"__stop_.text", None, None);
    (b"__start_a.b", None, None); (b"_start_a", None, None);
];

#[test]
fn names_of_sections(rt: HostRuntime) {
    for (name, start, stop) in EDGES {
        assert_eq!(rt; start_of(*name), *start);
        assert_eq!(rt; stop_of(*name), *stop);
    }
    for section in [0, 1, 70000] {
        assert_eq!(rt; bound_section(start_no(section)), Some(section));
        assert_eq!(rt; bound_section(stop_no(section)), Some(section));
        assert!(rt; !is_stop(start_no(section)));
        assert!(rt; is_stop(stop_no(section)));
    }
    assert_eq!(rt; bound_section(17), None);
}
