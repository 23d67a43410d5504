//! Lines, items, words and numbers of texts: the building blocks of the readers of tables, chains, logs and
//! certificates.
//!
//! A text is a list of lines, a line is a list of items separated by single blanks, and a number is its
//! decimal digits. Each of these is a definition on lists (`lines_of`, `items_of`, `after`, `number_up_to`).
//! The reader of the same name walks the bytes in place, allocates nothing, and is proved to return what the
//! definition says. The laws in `laws` show that the definitions are the right ones: joining the lines or the
//! items gives the text back, and a number is read if and only if the text is its decimal digits.
//!
//! ```text
//! let (text, ended, rest) = next_line(b"inputs 3\n01").unwrap(); // b"inputs 3", true, b"01"
//! let digits = after(b"inputs ", text).unwrap();                 // b"3"
//! let inputs = number_up_to(MOST_NUMBER, digits);                // Some(3)
//! ```
#![tactic(auto)]

mod items;
mod laws;
mod lines;
mod numbers;
mod words;

pub use items::next_item;
pub use laws::{laws_of_items, laws_of_lines, laws_of_numbers, laws_of_rests, laws_of_words};
pub use lines::next_line;
pub use numbers::{MOST_NUMBER, number_up_to, push_number};
pub use words::{after, begins_lower};
