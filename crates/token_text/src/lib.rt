//! Lexical forms of scripts and journals: each value has one token, written and read.
#![tactic(auto)]

mod faults;
mod hexes;
mod laws;
mod lists;
mod numbers;
mod parts;
mod texts;
mod words;
mod writing;

pub use faults::TokenFault;
pub use hexes::{put_hex, read_hex};
pub use laws::forms_are_exact;
pub use lists::{
    put_ints, put_members, put_rank_args, put_rank_outs, put_triplets, read_ints, read_members,
    read_rank_args, read_rank_outs, read_triplets,
};
pub use numbers::{put_int, put_num, put_number, read_int, read_num, read_number};
pub use texts::{put_quoted, read_name, read_pset_name, read_quoted};
pub use words::{put_int_or, put_num_or, put_source, read_int_or, read_num_or, read_source};
pub use writing::{Line, put};
