//! JSON (RFC 8259), written token by token into memory, over the kit's `json`.
#![tactic(auto)]

mod text;

pub use text::JsonText;
