// Text at a place of lent bytes: words, digits, whole numbers. Each function writes from place `at` on,
// as much of its text as there is room for, and hands back the place after what it wrote; so texts written one after another
// are one text.
// Kept: bytes and place as two parameters. One struct of both was tried: it proves, and writing takes over 1.2 times plain Rust.
#![tactic(auto)]

mod digits;
mod parts;
mod whole;

pub use digits::put_digits;
pub use parts::{put_byte, put_word};
pub use whole::{put_decimal, put_signed};
