// Numbers as text: read from a field's bytes, and written into bytes that are lent. specs/ says what their text is.

#![tactic(auto)]

pub mod number;
pub mod writing;
