//! Which bits of a place hold which bits of a value.

ghost use Rattle.std.specs.Prelude.{◌≡◌, All};
ghost use Rattle.lk_base.specs.Formats.{field_of};
ghost use Rattle.rv_code.specs.Parts.{IsPart, runs_of};

use lk_base::relocations::Format;

/// Bits `high` down to `low` of a place, which are the value's from bit `from` on.
#[derive(Clone, Copy)]
pub struct Part {
    pub high: u32,
    pub low: u32,
    pub from: u32,
}

macro_rules! part {
    ($high:literal, $low:literal, $from:literal) => {
        Part {
            high: $high,
            low: $low,
            from: $from,
        }
    };
}

/// The parts that are taken from the value.
pub fn plain_parts(format: Format) -> &'static [Part]
    ensures runs { runs_of result.now ≡ (field_of format).plain }
    ensures sound { All IsPart result.now }
{
    match format {
        Format::Empty | Format::U => &[],
        Format::I => &[part!(31, 20, 0)],
        Format::S => &[part!(31, 25, 5), part!(11, 7, 0)],
        Format::B => &[
            part!(31, 31, 12),
            part!(30, 25, 5),
            part!(11, 8, 1),
            part!(7, 7, 11),
        ],
        Format::J => &[
            part!(31, 31, 20),
            part!(30, 21, 1),
            part!(20, 20, 11),
            part!(19, 12, 12),
        ],
        Format::Cb => &[
            part!(12, 12, 8),
            part!(11, 10, 3),
            part!(6, 5, 6),
            part!(4, 3, 1),
            part!(2, 2, 5),
        ],
        Format::Cj => &[
            part!(12, 12, 11),
            part!(11, 11, 4),
            part!(10, 9, 8),
            part!(8, 8, 10),
            part!(7, 7, 6),
            part!(6, 6, 7),
            part!(5, 3, 1),
            part!(2, 2, 5),
        ],
        Format::Call => &[part!(63, 52, 0)],
        Format::Byte => &[part!(7, 0, 0)],
        Format::Half => &[part!(15, 0, 0)],
        Format::Word => &[part!(31, 0, 0)],
        Format::Doubleword => &[part!(63, 32, 32), part!(31, 0, 0)],
        Format::LowSix => &[part!(5, 0, 0)],
    }
}

/// The parts that are taken from the value + 0x800.
pub fn rounded_parts(format: Format) -> &'static [Part]
    ensures runs { runs_of result.now ≡ (field_of format).rounded }
    ensures sound { All IsPart result.now }
{
    match format {
        Format::U | Format::Call => &[part!(31, 12, 12)],
        _ => &[],
    }
}
