// Lines of any length and content, hexadecimal and decimal numbers.
#![tactic(auto)]

mod buffer;
mod decimal;
mod ends;
mod hex;
mod keys;
mod reading;
mod refusal;
mod tail;
mod text;
mod value;

pub use buffer::{LineBuffer, Taken};
pub use decimal::parse_number;
pub use ends::{has_feed, without_return};
pub use hex::{all_digits, decode};
pub use keys::{is_word, value_after};
pub use reading::next_line;
pub use refusal::HexRefusal;
pub use tail::Tail;
pub use text::{is_comment, whole_text};
pub use value::{hex_value, value_in};
