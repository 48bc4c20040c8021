// Fields after the first of a line, each behind its tab.
ghost use Rattle.std.specs.Prelude.{◌≡◌, [], ◌∷◌};
ghost use Rattle.rules.specs.Printing as P;
ghost use Rattle.rules.specs.Printing.{decimal, signed_decimal, hole_fields};
ghost use Rattle.text.specs.Wrote.{Wrote};
ghost use Rattle.print.specs.Fields.{tabbed, point_fields};
ghost use Rattle.print.specs.Line.{decimals};

use points::Point;
use rules::{Hole, kind};
use text::{put_byte, put_decimal, put_signed};

fn put_number(b: &mut [u8], at: usize, n: u64) -> usize
    ensures { Wrote b.old at (tabbed (decimal n ∷ [])) b.new result }
{
    let digits = put_byte(b, at, b'\t');
    put_decimal(b, digits, n)
}

pub(crate) fn put_numbers(b: &mut [u8], at: usize, numbers: &[u64]) -> usize
    ensures { Wrote b.old at (tabbed (decimals numbers.now)) b.new result }
{
    let mut end = at;
    for &n in numbers {
        end = put_number(b, end, n);
    }
    end
}

fn put_coordinate(b: &mut [u8], at: usize, x: i32) -> usize
    ensures { Wrote b.old at (tabbed (signed_decimal x ∷ [])) b.new result }
{
    let number = put_byte(b, at, b'\t');
    put_signed(b, number, x)
}

fn put_point(b: &mut [u8], at: usize, p: Point) -> usize
    ensures { Wrote b.old at (tabbed (point_fields p)) b.new result }
{
    let x_end = put_coordinate(b, at, p.x);
    put_coordinate(b, x_end, p.y)
}

// H hit, L line, C clockwise, A counter-clockwise.
fn letter(kind: u32) -> u8
    ensures { P.letter kind ≡ result ∷ [] }
{
    match kind {
        kind::HIT => b'H',
        kind::G01 => b'L',
        kind::G02 => b'C',
        _ => b'A',
    }
}

fn put_letter(b: &mut [u8], at: usize, kind: u32) -> usize
    ensures { Wrote b.old at (tabbed (P.letter kind ∷ [])) b.new result }
{
    let place = put_byte(b, at, b'\t');
    put_byte(b, place, letter(kind))
}

// A hole's fields: letter, tool, start, end and radius.
pub(crate) fn put_hole(b: &mut [u8], at: usize, hole: Hole) -> usize
    ensures { Wrote b.old at (tabbed (hole_fields hole)) b.new result }
{
    let letter_end = put_letter(b, at, hole.kind);
    let tool_end = put_number(b, letter_end, u64::from(hole.tool));
    let start_end = put_point(b, tool_end, hole.start);
    let end_end = put_point(b, start_end, hole.end);
    put_number(b, end_end, u64::from(hole.radius))
}
