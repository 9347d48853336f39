//! The line of a defect, and names as lines show them.

ghost use Rattle.std.specs.Prelude.{◌≡◌, ℕ, ◌+◌, ◌<◌, ◌++◌, ◌∷◌, [], List, take, length, codes, IfOk, OnOk, OnErr};
ghost use Rattle.std.specs.Fmt.{decimal};
ghost use Rattle.lk_base.specs.Lines.{IsOneLine, IsRecoverable, defect_line, escaped, escaped_byte, hex_digit, shown_file, shown_other, title_of};

use crate::defects::Defect;
use crate::kinds::DefectKind;
use crate::numbers::{FileNo, NO_FILE};
use std::alloc::{AllocError, Global};

fn hex_digit(digit: u8) -> u8
    requires { digit < 16 }
    ensures { result ≡ hex_digit digit }
{
    b"0123456789ABCDEF"[usize::from(digit)]
}

fn push_escaped_byte(line: &mut Vec<u8>, byte: u8) -> Result<(), AllocError>
    ensures ok { OnOk result (line.new.items ≡ line.old.items ++ escaped_byte byte) }
    ensures err { OnErr result (line.new.items ≡ line.old.items) }
{
    if (0x21..=0x7e).contains(&byte) && byte != b'%' {
        line.push(byte)?;
        return Ok(());
    }
    line.extend_from_slice(&[b'%', hex_digit(byte / 16), hex_digit(byte % 16)])
}

// The line with the name at its end, or with what of it found room.
fn push_each_escaped(line: &mut Vec<u8>, name: &[u8]) -> Result<(), AllocError>
    ensures ok { OnOk result (line.new.items ≡ line.old.items ++ escaped name.now) }
    ensures err { OnErr result (take (length line.old.items) line.new.items ≡ line.old.items) }
{
    for byte in name {
        push_escaped_byte(line, *byte)?;
    }
    Ok(())
}

/// Puts a name at a line's end, in the form in which every line and every map shows names.
pub fn push_escaped(line: &mut Vec<u8>, name: &[u8]) -> Result<(), AllocError>
    ensures ok { OnOk result (line.new.items ≡ line.old.items ++ escaped name.now) }
    ensures err { OnErr result (line.new.items ≡ line.old.items) }
    ensures recoverable { IsRecoverable name.now }
{
    let start = line.len();
    let pushed = push_each_escaped(line, name);
    if pushed.is_err() {
        line.truncate(start);
    }
    pushed
}

fn push_title(line: &mut Vec<u8>, kind: DefectKind) -> Result<(), AllocError>
    ensures { OnOk result (line.new.items ≡ line.old.items ++ title_of kind) }
{
    line.extend_from_slice(b"rvld: ")?;
    line.extend_from_slice(kind.code().as_bytes())?;
    line.push(b' ')?;
    line.extend_from_slice(kind.word().as_bytes())
}

fn push_file(line: &mut Vec<u8>, number: FileNo, file: &[u8]) -> Result<(), AllocError>
    ensures { OnOk result (line.new.items ≡ line.old.items ++ shown_file number file.now) }
{
    if number == NO_FILE {
        line.push(b'-')?;
        return Ok(());
    }
    push_escaped(line, file)
}

fn push_number(
    alloc: Global,
    line: &mut Vec<u8>,
    label: &str,
    number: u64,
) -> Result<(), AllocError>
    ensures { OnOk result (line.new.items ≡ line.old.items ++ label.now ++ decimal number) }
{
    let digits = number.to_string(alloc)?;
    line.extend_from_slice(label.as_bytes())?;
    line.extend_from_slice(digits.as_bytes())
}

fn push_other(
    alloc: Global,
    line: &mut Vec<u8>,
    defect: &Defect,
    other: &[u8],
) -> Result<(), AllocError>
    ensures { OnOk result (line.new.items ≡ line.old.items ++ codes " other=" ++ shown_other defect.now other.now) }
{
    if defect.kind.names_other_file() {
        line.extend_from_slice(b" other=")?;
        return push_escaped(line, other);
    }
    push_number(alloc, line, " other=", defect.other)
}

/// The line that reports a defect. `file` is the name of the defect's file (of a member with its archive's, as
/// `lib.a(m.o)`), `name` the name that the kind speaks of, and `other` the name of the other file of a duplicate. All
/// three are given as they are, and escaped here; what the line does not show is not read. The only error is out of memory.
pub fn line_of(
    alloc: Global,
    defect: &Defect,
    file: &[u8],
    name: &[u8],
    other: &[u8],
) -> Result<Vec<u8>, AllocError>
    ensures line { IfOk result (λ line. line.items ≡ defect_line defect.now file.now name.now other.now) }
    ensures one_line { IfOk result (λ line. IsOneLine line.items) }
{
    let mut line = Vec::new(alloc);
    push_title(&mut line, defect.kind)?;
    line.extend_from_slice(b" file=")?;
    push_file(&mut line, defect.file, file)?;
    push_number(alloc, &mut line, " section=", u64::from(defect.section))?;
    push_number(alloc, &mut line, " place=", defect.place)?;
    line.extend_from_slice(b" name=")?;
    push_escaped(&mut line, name)?;
    push_other(alloc, &mut line, defect, other)?;
    line.push(b'\n')?;
    Ok(line)
}
