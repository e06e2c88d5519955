// Where a line is put together before it is copied to the output, so that an output too short for it is left as it is.
ghost use Rattle.std.specs.Prelude.{◌≡◌, ◌+◌, ◌≤◌, ◌++◌, drop};
ghost use Rattle.arrayvec.specs.ArrayString.{array_string_len};
ghost use Rattle.lines.specs.Decimals.{DecimalOf};
ghost use Rattle.lines.specs.Limits.{longest_line, longest_field};
ghost use Rattle.lines.specs.Texts.{spaced};
ghost use Rattle.lines.specs.Written.{Written};

use crate::refusal::Refusal;
use arrayvec::ArrayString;
use itoa::{Buffer, Integer};

// A letter of at most 4 bytes, at most 5 numbers with a space before each, and the line's end.
const LONGEST_LINE: usize = 4 + 5 * (1 + u64::MAX_STR_LEN) + 1;

pub(crate) type LineBuffer = ArrayString<LONGEST_LINE>;

// Adds a space and a number at the end.
pub(crate) fn push_number(line: &mut LineBuffer, number: u64)
    requires has_room { array_string_len line.old + longest_field ≤ longest_line }
    ensures adds_space_and_number { line.new.bytes ≡ line.old.bytes ++ spaced number }
    ensures grows_by_one_field_at_most { array_string_len line.new ≤ array_string_len line.old + longest_field }
    ensures digits_read_back_as_the_number { DecimalOf number (drop (array_string_len line.old + 1) line.new.bytes) }
{
    line.push(' ');
    line.push_str(Buffer::new().format(number));
}

// Copies the line to the front of the output, if it has the room.
pub(crate) fn copy_to(line: &LineBuffer, out: &mut [u8]) -> Result<usize, Refusal>
    ensures writes_what_is_held { Written line.now.bytes out.old out.new result }
{
    let (front, _) = out
        .split_at_mut_checked(line.len())
        .ok_or(Refusal::ShortOutput)?;
    front.copy_from_slice(line.as_bytes());
    Ok(line.len())
}
