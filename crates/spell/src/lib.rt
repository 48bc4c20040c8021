// A command's line as text: how long it is, and its bytes. Each function that writes does so from place `at` on, as crate
// text has it, and hands back the place after its text.
// Kept: bytes and place as two parameters, as in crate text, for the same reason.
#![tactic(auto)]

ghost use Rattle.std.specs.Prelude.{◌≡◌, ◌++◌, ◌≤◌, length};
ghost use Rattle.lists.specs.Words.{bytes};
ghost use Rattle.rules.specs.declared.Command.TheVariants.{Declare};
ghost use Rattle.rules.specs.Writing.{tool_text, point_text, arc_text, spelt, line_text, longest_line};
ghost use Rattle.text.specs.Wrote.{Wrote};

use millionths::{
    coordinate_length, number_length, put_coordinate, put_number, put_radius, radius_length,
};
use points::{Arc, Point};
use rules::Command;
use text::{put_byte, put_digits, put_word};

// ---- lengths

fn point_length(p: Point) -> usize
    ensures { (result ≡ length (point_text p)) × (result ≤ 24) }
{
    2 + coordinate_length(p.x) + coordinate_length(p.y)
}

fn arc_length(a: Arc) -> usize
    ensures { (result ≡ length (arc_text a)) × (result ≤ 35) }
{
    point_length(a.to) + 1 + radius_length(a.decimals, a.radius)
}

/// How many bytes a command's line has, its LF counted. A comment has none.
#[tactic(auto, using(crate::proofs::Lengths::ended_length, crate::proofs::Lengths::tool_length, crate::proofs::Lengths::declaration_length), unfolding(rules::specs::Writing::line_text, rules::specs::Writing::spelt))]
pub fn line_length(c: Command) -> usize
    ensures { (result ≡ length (line_text c)) × (result ≤ longest_line) }
{
    match c {
        Command::Comment => 0,
        Command::M48 => 4,
        Command::Metric => 7,
        Command::Inch => 5,
        Command::Declare(_, d) => 5 + number_length(d),
        Command::Percent => 2,
        Command::G05 => 4,
        Command::G00(p) => 4 + point_length(p),
        Command::Select(_) => 4,
        Command::Hit(p) => 1 + point_length(p),
        Command::M15 => 4,
        Command::M16 => 4,
        Command::G01(p) => 4 + point_length(p),
        Command::G02(a) => 4 + arc_length(a),
        Command::G03(a) => 4 + arc_length(a),
        Command::M30 => 4,
    }
}

// ---- bytes

// T and two digits.
fn put_tool(b: &mut [u8], at: usize, t: u32) -> usize
    ensures { Wrote b.old at (bytes "T" ++ tool_text t) b.new result }
{
    let digits = put_byte(b, at, b'T');
    put_digits(b, digits, 2, u64::from(t))
}

fn put_point(b: &mut [u8], at: usize, p: Point) -> usize
    ensures { Wrote b.old at (point_text p) b.new result }
{
    let x = put_byte(b, at, b'X');
    let x_end = put_coordinate(b, x, p.x);
    let y = put_byte(b, x_end, b'Y');
    put_coordinate(b, y, p.y)
}

fn put_arc(b: &mut [u8], at: usize, a: Arc) -> usize
    ensures { Wrote b.old at (arc_text a) b.new result }
{
    let to_end = put_point(b, at, a.to);
    let radius = put_byte(b, to_end, b'A');
    put_radius(b, radius, a.decimals, a.radius)
}

fn put_declaration(b: &mut [u8], at: usize, t: u32, d: u32) -> usize
    ensures { Wrote b.old at (spelt (Declare t d)) b.new result }
{
    let tool_end = put_tool(b, at, t);
    let diameter = put_byte(b, tool_end, b'C');
    put_number(b, diameter, d)
}

// Kept: two functions, and not one that takes what follows the word as a closure: each is two calls, which is plainer.
fn put_point_after(b: &mut [u8], at: usize, word: &[u8], p: Point) -> usize
    ensures { Wrote b.old at (word.now ++ point_text p) b.new result }
{
    let word_end = put_word(b, at, word);
    put_point(b, word_end, p)
}

fn put_arc_after(b: &mut [u8], at: usize, word: &[u8], a: Arc) -> usize
    ensures { Wrote b.old at (word.now ++ arc_text a) b.new result }
{
    let word_end = put_word(b, at, word);
    put_arc(b, word_end, a)
}

// A command's line without its LF.
#[tactic(auto, unfolding(rules::specs::Writing::spelt))]
fn put_command(b: &mut [u8], at: usize, c: Command) -> usize
    ensures { Wrote b.old at (spelt c) b.new result }
{
    match c {
        Command::Comment => put_byte(b, at, b';'),
        Command::M48 => put_word(b, at, b"M48"),
        Command::Metric => put_word(b, at, b"METRIC"),
        Command::Inch => put_word(b, at, b"INCH"),
        Command::Declare(t, d) => put_declaration(b, at, t, d),
        Command::Percent => put_byte(b, at, b'%'),
        Command::G05 => put_word(b, at, b"G05"),
        Command::G00(p) => put_point_after(b, at, b"G00", p),
        Command::Select(t) => put_tool(b, at, t),
        Command::Hit(p) => put_point(b, at, p),
        Command::M15 => put_word(b, at, b"M15"),
        Command::M16 => put_word(b, at, b"M16"),
        Command::G01(p) => put_point_after(b, at, b"G01", p),
        Command::G02(a) => put_arc_after(b, at, b"G02", a),
        Command::G03(a) => put_arc_after(b, at, b"G03", a),
        Command::M30 => put_word(b, at, b"M30"),
    }
}

/// A command's line with its LF, as much as there is room for. A comment is dropped.
#[tactic(auto, using(text::proofs::Wrote::wrote_nothing, text::proofs::Wrote::wrote_more), unfolding(rules::specs::Writing::line_text))]
pub fn put_line(b: &mut [u8], at: usize, c: Command) -> usize
    ensures { Wrote b.old at (line_text c) b.new result }
{
    if let Command::Comment = c {
        return at;
    }
    let end = put_command(b, at, c);
    put_byte(b, end, b'\n')
}
