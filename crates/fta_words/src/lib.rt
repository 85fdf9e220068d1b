//! The words of the command line: which request they give, and which of them name files.
//!
//! The table has a row for each command. The form of the words is tested first, and `clap` reads the options of words that have it.
#![tactic(auto)]

mod asked;
mod chosen;
mod command;
mod error;
mod explained;
mod files;
mod form;
mod hours;
mod kind;
mod number;
mod options;
mod parsed;
mod plain;
mod root;
mod short;
mod table;
mod text;

pub use command::{Form, Options, Paging, Request};
pub use error::WordsFault;
pub use explained::explained_call;
pub use files::{FileWords, file_words, is_option};
pub use kind::{KINDS, Kind, Shape};
pub use table::{
    CODES, Names, about_of, are_named, flags_of, is_among, kind_named, name_of, optional_of,
    usage_of, valued_of,
};
