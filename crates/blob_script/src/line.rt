// Lines that are put together without memory.

ghost use Rattle.std.specs.Prelude.{◌≡◌, ◌+◌, ◌≤◌, ◌++◌, length, decimal};
ghost use Rattle.hex.specs.Hex.{encode_lower};
ghost use Rattle.store_model.specs.Answer.{line_end, two_numbers};

use arrayvec::ArrayVec;

/// The most bytes that such a line has.
pub(crate) const MAX_LINE: usize = 256;

/// Puts a value in hexadecimal behind what is there.
pub(crate) fn push_value(line: &mut ArrayVec<u8, MAX_LINE>, value: &[u8; 32])
    requires { length line.old.items + 64 ≤ 256 }
    ensures text { line.new.items ≡ line.old.items ++ encode_lower value.now }
    ensures len { length line.new.items ≡ length line.old.items + 64 }
{
    let mut digits = [0; 64];
    let _ = hex::encode_to_slice(value, &mut digits);
    push_text(line, &digits);
}

/// A text as a line.
pub(crate) fn line_of(text: &[u8]) -> ArrayVec<u8, MAX_LINE>
    requires { length text.now ≤ 100 }
    ensures { result.items ≡ text.now ++ line_end }
{
    let mut line = ArrayVec::new();
    push_text(&mut line, text);
    push_text(&mut line, b"\n");
    line
}

/// A label and a number as a line.
pub(crate) fn line_with_number(label: &[u8], number: u64) -> ArrayVec<u8, MAX_LINE>
    requires { length label.now ≤ 100 }
    ensures { result.items ≡ label.now ++ decimal number ++ line_end }
{
    let mut line = ArrayVec::new();
    push_text(&mut line, label);
    push_number(&mut line, number);
    push_text(&mut line, b"\n");
    line
}

/// A label and two numbers as a line.
pub(crate) fn line_with_two(label: &[u8], first: u64, second: u64) -> ArrayVec<u8, MAX_LINE>
    requires { length label.now ≤ 100 }
    ensures { result.items ≡ label.now ++ two_numbers first second ++ line_end }
{
    let mut line = ArrayVec::new();
    push_text(&mut line, label);
    push_number(&mut line, first);
    push_text(&mut line, b" ");
    push_number(&mut line, second);
    push_text(&mut line, b"\n");
    line
}

/// Puts a text behind what is there.
pub(crate) fn push_text(line: &mut ArrayVec<u8, MAX_LINE>, text: &[u8])
    requires { length line.old.items + length text.now ≤ 256 }
    ensures text { line.new.items ≡ line.old.items ++ text.now }
    ensures len { length line.new.items ≡ length line.old.items + length text.now }
{
    for byte in text {
        line.push(*byte);
    }
}

/// Puts a number behind what is there.
pub(crate) fn push_number(line: &mut ArrayVec<u8, MAX_LINE>, number: u64)
    requires { length line.old.items + 20 ≤ 256 }
    ensures text { line.new.items ≡ line.old.items ++ decimal number }
    ensures len { length line.new.items ≤ length line.old.items + 20 }
{
    push_text(line, itoa::Buffer::new().format(number).as_bytes());
}
