//! One file of rows for each pass; `links` links objects pass after pass; `kept`, `leaders` and `addresses` have tables that were made by hand.

/// A table, several rows a line.
macro_rules! table {
    ($($row:expr);+ $(;)?) => {
        &[$($row),+]
    };
}

/// A pass and all that it is given, on as few lines as that takes.
macro_rules! pass {
    ($pass:ident; $($given:expr),+) => {
        $pass($($given),+)
    };
}

/// A link by blocks: its objects; how many bytes its sections have in the file, and the first and the end of the lengths of blocks; the executable.
macro_rules! example {
    ($objects:expr; $written:expr, $from:expr, $to:expr; $image:expr) => {
        Example { objects: $objects, lengths: Lengths { written: $written, from: $from, to: $to }, image: $image }
    };
}

mod addresses;
mod blocks;
mod calls;
mod examples;
mod kept;
mod layouts;
mod leaders;
mod links;
mod listed;
mod objects;
mod pieces;
mod shortened;
mod values;
