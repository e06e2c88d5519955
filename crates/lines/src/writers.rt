// One writer for each line that a replay prints. Each writes its line at the front of the output and answers the line's
// length; where the output is shorter than the line it refuses and writes nothing.
// A kind is any letter and a refusal or a fault any number, since a narrower type would ask more of callers.
ghost use Rattle.std.specs.Prelude.{◌≤◌, length, encode_utf8};
ghost use Rattle.lines.specs.Texts.{line_of, grant_line, refusal_line, totals_line, fault_line};
ghost use Rattle.lines.specs.Written.{Written};

use crate::buffer::{LineBuffer, copy_to, push_number};
use crate::refusal::Refusal;

// `G site waited`: the resource was given to the site, which had waited for so many steps.
pub fn write_grant(out: &mut [u8], site: usize, waited: u64) -> Result<usize, Refusal>
    ensures writes_the_grant_line { Written (grant_line site waited) out.old out.new result }
{
    write_line(out, 'G', &[site as u64, waited])
}

// `N line number`: the script's line was refused, for the refusal of that number.
pub fn write_refusal(out: &mut [u8], line: usize, number: u8) -> Result<usize, Refusal>
    ensures writes_the_refusal_line { Written (refusal_line line number) out.old out.new result }
{
    write_line(out, 'N', &[line as u64, number as u64])
}

// `T block lines asks frees steps`: a block's totals, with the manager's kind letter in the place of T.
pub fn write_totals(
    out: &mut [u8],
    kind: char,
    block: usize,
    lines: usize,
    asks: u64,
    frees: u64,
    steps: u64,
) -> Result<usize, Refusal>
    ensures writes_the_totals_line { Written (totals_line kind block lines asks frees steps) out.old out.new result }
{
    write_line(out, kind, &[block as u64, lines as u64, asks, frees, steps])
}

// `X number block line place`: the fault of that number, and where it is.
pub fn write_fault(
    out: &mut [u8],
    number: u8,
    block: usize,
    line: usize,
    place: usize,
) -> Result<usize, Refusal>
    ensures writes_the_fault_line { Written (fault_line number block line place) out.old out.new result }
{
    write_line(
        out,
        'X',
        &[number as u64, block as u64, line as u64, place as u64],
    )
}

// A letter, each number after a space, and the line's end.
fn write_line(out: &mut [u8], letter: char, numbers: &[u64]) -> Result<usize, Refusal>
    requires numbers_fit { length numbers.now ≤ 5 }
    ensures writes_the_line { Written (line_of (encode_utf8 letter) numbers.now) out.old out.new result }
{
    let mut line = LineBuffer::new();
    line.push(letter);
    for &number in numbers {
        push_number(&mut line, number);
    }
    line.push('\n');
    copy_to(&line, out)
}
