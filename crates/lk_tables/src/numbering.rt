//! The names of a link by number.

ghost use Rattle.std.specs.Prelude.{◌≡◌, ◌<◌, List, length, slice_index_or};
ghost use Rattle.lk_tables.specs.Files.{File, file_at};
ghost use Rattle.lk_tables.specs.NameNumbers.{NumbersNames, name_number};

/// The numbers of the names of all files' symbols that are not LOCAL. The number of a name is that of the first such symbol that has it, in
/// order of file and symbol; so two of them have names of one number exactly if their names are equal. A LOCAL symbol has 0.
#[derive(Debug, Drop)]
pub struct NameNumbers {
    /// The number of each file's first symbol, and after these how many symbols there are.
    pub starts: Vec<u32>,
    /// By the symbols' numbers those of their names; 0 for a local symbol.
    pub numbers: Vec<u32>,
}

impl NameNumbers {
    /// The number of the name of a symbol of a file; 0 past the end of the table.
    pub fn number(&self, file: usize, symbol: usize) -> u32
        ensures { (files : List File) → NumbersNames files self.now → file < length files → symbol < length (file_at files file).head.symbols → result ≡ name_number files file symbol }
    {
        let start = number_at(&self.starts, file);
        number_at(&self.numbers, (start as usize).saturating_add(symbol))
    }
}

/// The number at a place of a list; 0 past its end.
fn number_at(numbers: &[u32], place: usize) -> u32
    ensures { result ≡ slice_index_or numbers.now place 0 }
{
    match numbers.get(place) {
        Some(number) => *number,
        None => 0,
    }
}
