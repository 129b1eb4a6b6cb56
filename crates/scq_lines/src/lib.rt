// Texts of lines, which programs and people write alike: the lines of a text, the fields of a line,
// and the numbers and contents that fields say. It stands on `scq_word` for the bytes of a content
// and on `hex` and `memchr`. The layers above use that each call is the definition of
// `specs/Lines.antt` of its name; so what a format says of a line is a function of the line's
// fields alone.
#![tactic(auto)]

mod contents;
mod fields;
mod lines;
mod numbers;

pub use contents::content;
pub use fields::{first_field, next_field};
pub use lines::next_line;
pub use numbers::{number, number_below, number_up_to};
