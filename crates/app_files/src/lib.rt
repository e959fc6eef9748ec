//! What the program `cuvolemin` does with files besides expanding: it reads them, writes their tokens, their tree or their derivation as
//! lines, and reports their errors of syntax.
//!
//! A `Failure` is why a command ends. `Input` is the file that a command reads, or standard input; `write_whole` replaces a file as a whole, `Staged` several.
//! `tree_of` reads a text into its tree. `write_tokens`, `write_tree` and `write_syntax` write lines; `syntax_failure` and `grammar_failure`
//! word errors. `recursion_limit_of`, `shebang_of` and `Mentions` say what else is in a text that is expanded.
#![tactic(auto)]

mod failure;
mod grammar_error;
mod input;
mod mentions;
mod plain;
mod recursion_limit;
mod shebang;
mod style;
mod syntax_error;
mod syntax_lines;
mod token_lines;
mod tree_lines;
mod trivia;
mod whole_file;
mod words;

pub use failure::Failure;
pub use grammar_error::grammar_failure;
pub use input::Input;
pub use mentions::Mentions;
pub use plain::plain_text;
pub use recursion_limit::recursion_limit_of;
pub use shebang::{shebang_of, without_shebang};
pub use style::style_of;
pub use syntax_error::{error_text_at, syntax_failure};
pub use syntax_lines::write_syntax;
pub use token_lines::write_tokens;
pub use tree_lines::{tree_of, write_tree};
pub use whole_file::{Staged, is_same_file, write_whole};
