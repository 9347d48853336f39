//! Inputs, archives, links and refusals as rows, as the macros of `elf_bytes` write objects.

/// Inputs: the name and the object of each, and after a `;` how many of the object's bytes it has, where not all.
#[macro_export]
macro_rules! inputs {
    ($($name:literal => $object:expr $(; $most:literal)?),+ $(,)?) => {
        &[$($crate::objects::Input { name: $name, object: $object, most: $crate::most!($($most)?) }),+]
    };
}

/// How many of an object's bytes an input has.
#[macro_export]
macro_rules! most {
    () => {
        $crate::objects::WHOLE
    };
    ($most:literal) => {
        $most
    };
}

/// An archive's member: its name, its object, and how many of the object's bytes it has, where not all; or its name and its text.
#[macro_export]
macro_rules! member {
    ($name:expr, $object:expr) => {
        $crate::libraries::Member { name: $name, contents: $crate::libraries::Contents::Built($object, $crate::objects::WHOLE) }
    };
    ($name:expr, $object:expr, $most:expr) => {
        $crate::libraries::Member { name: $name, contents: $crate::libraries::Contents::Built($object, $most) }
    };
    ($name:expr; $text:expr) => {
        $crate::libraries::Member { name: $name, contents: $crate::libraries::Contents::Text($text) }
    };
}

/// An archive: its name; its members; and what it begins with, its index of symbols, or what stands after its members.
#[macro_export]
macro_rules! library {
    ($name:expr; $($member:expr),*) => {
        $crate::library!($name, $crate::libraries::ARCHIVE, None, b""; $($member),*)
    };
    ($name:expr; $($member:expr),*; magic: $magic:expr) => {
        $crate::library!($name, $magic, None, b""; $($member),*)
    };
    ($name:expr; $($member:expr),*; index: $index:expr) => {
        $crate::library!($name, $crate::libraries::ARCHIVE, $index, b""; $($member),*)
    };
    ($name:expr; $($member:expr),*; tail: $tail:expr) => {
        $crate::library!($name, $crate::libraries::ARCHIVE, None, $tail; $($member),*)
    };
    ($name:expr, $magic:expr, $index:expr, $tail:expr; $($member:expr),*) => {
        $crate::libraries::Library {
            name: $name,
            archive: $crate::libraries::Archive { magic: $magic, index: $index, members: &[$($member),*] },
            tail: $tail,
        }
    };
}

/// An executable of code alone: how many bytes it has, the offset of the section headers, the code, and other fields by name.
#[macro_export]
macro_rules! code {
    ($size:literal => $table:literal; $code:expr $(; $($field:ident: $value:expr),+)?) => {
        $crate::images::Image {
            segments: &[$crate::images::READ, [1, 5, 0x1000, 0x11000, $size, $size, 4096], $crate::images::STACK],
            contents: &[(0x1000, $code), (0x1000 + $size, $crate::images::NAMES)],
            table: $table,
            sections: &[[1, 1, 6, 0x11000, 0x1000, $size, 4], [7, 3, 0, 0, 0x1000 + $size, 17, 1]],
            $($($field: $value,)+)?
            ..$crate::images::FIRST
        }
    };
}

/// An executable of code and of data that may be written: their sizes, the offset of the section headers, code, data, and other fields by name.
#[macro_export]
macro_rules! code_and_data {
    ($size:literal, $data_size:literal => $table:literal; $code:expr; $data:expr $(; $($field:ident: $value:expr),+)?) => {
        $crate::images::Image {
            segments: &[$crate::images::READ_OF_FOUR, [1, 5, 0x1000, 0x11000, $size, $size, 4096],
                [1, 6, 0x2000, 0x12000, $data_size, $data_size, 4096], $crate::images::STACK],
            contents: &[(0x1000, $code), (0x2000, $data), (0x2000 + $data_size, $crate::images::NAMES_WITH_DATA)],
            table: $table,
            sections: &[[1, 1, 6, 0x11000, 0x1000, $size, 4], [7, 1, 3, 0x12000, 0x2000, $data_size, 8], [13, 3, 0, 0, 0x2000 + $data_size, 23, 1]],
            $($($field: $value,)+)?
            ..$crate::images::FIRST
        }
    };
}

/// A call of the program: its words, those that ask for a number of workers, the files and archives at hand, and what is outside.
#[macro_export]
macro_rules! call {
    ($words:expr, $workers:expr, $store:expr, $libraries:expr; $outside:expr) => {
        $crate::Call { words: $words, workers: $workers, store: $store, libraries: $libraries, outside: $outside }
    };
}

/// A command that links: its words after the program's name; its executable, where that is not the first link's; and other fields by name.
#[macro_export]
macro_rules! link {
    ($($word:literal),* $(=> $image:expr)? $(; $($field:ident: $value:expr),+)?) => {
        $crate::Link { words: &["rvld" $(, $word)*], $(image: $image,)? $($($field: $value,)+)? ..$crate::FIRST_LINK }
    };
    ($base:expr => $($field:ident: $value:expr),+) => {
        $crate::Link { $($field: $value,)+ ..$base }
    };
}

/// A command that links nothing: its words, its status, how many loads there are, its line (both after the program's name), other fields by name.
#[macro_export]
macro_rules! refusal {
    ($($word:literal),* => $status:literal, $loads:literal, $line:literal $(; $($field:ident: $value:expr),+)?) => {
        $crate::Refusal {
            words: &["rvld" $(, $word)*],
            status: $status,
            line: concat!("rvld: ", $line, "\n"),
            loads: $loads,
            $($($field: $value,)+)?
            ..$crate::NO_WORDS
        }
    };
    ($base:expr => $($field:ident: $value:expr),+) => {
        $crate::Refusal { $($field: $value,)+ ..$base }
    };
}
