//! What a text is made of: whole numbers, prices, names and the bytes that end fields and lines.
#![tactic(auto)]

mod digits;
mod ends;
mod line;
mod name;
mod number;
mod price;
mod run;
mod token;

pub use digits::is_digit;
pub use ends::{field_end, line_end};
pub use line::{MOST_FIELDS, Values, number_line, price_line};
pub use name::{NAME_BYTES, Name, is_letter_or_digit, name_field, named_line, read_name};
pub use number::{Number, WHOLE_DIGITS, closing_number, number_field, whole};
pub use price::{EURO_DIGITS, Price, closing_price, price_field, read_price};
