//! The order of work of commands, up to linked sets: the files of their words are loaded, texts and modules are read,
//! and modules are checked and linked. Each step answers what comes next, or what is said in its place.
#![tactic(auto)]

mod loading;
mod modules;
mod parts;
mod said;
mod set_lines;
mod sets;
mod texts;

pub use loading::{MARKS_LIMIT, MODULE_LIMIT, SCRIPT_LIMIT, VAULT_LIMIT, load_file};
pub use modules::{read_module, read_valid};
pub use parts::{LoadedPart, PartFile, load_parts};
pub use said::{Said, Status, Stop, refuse};
pub use set_lines::part_name;
pub use sets::link_parts;
pub use texts::{read_moves, text_of};
