//! The trees of the source language, as data that later passes share.
//!
//! `token` and `piece` have the tokens of preprocessed C; `specs/Lexed.antt` defines which a file has.
//! `expr`, `op`, `ctype`, `grammar`, `decl`, `stmt` and `unit` have the trees of C; `specs/Grammar.antt`,
//! `Statements.antt` and `Units.antt` define which tokens spell which tree.
#![tactic(auto)]

pub mod ctype;
pub mod decl;
pub mod expr;
pub mod grammar;
pub mod op;
pub mod piece;
pub mod stmt;
pub mod token;
pub mod unit;

pub use piece::{Bracket, Form, Opening, Piece, Role, Spot, Suffix};
pub use token::{IntToken, Kind, Punct, Reserved, StrToken, Token, Tokens};
