//! The lines of refusals, and the types that they tell.
#![tactic(auto)]

mod lines;
mod types;

pub use lines::{
    add_number_word, add_numbered, add_space, add_word, check_line, infer_line, marks_line,
    not_text_line, read_line, refusal_line, script_line, what_word,
};
pub use types::{add_external_word, add_function_word};
