//! One line that is reported.

ghost use Rattle.std.specs.Prelude.{◌≡◌, true};
ghost use Rattle.std.proofs.Props.{props};
ghost use Rattle.link_driver.specs.OneLine.{is_line};

/// Bytes that a terminal shows, and a newline.
#[derive(Drop)]
pub struct Line {
    pub bytes: Vec<u8>,

    ghost one: { is_line bytes.items ≡ true } by { Prim.hlevel props },
}
