//! A text as lexemes, whose numbers are not read yet, and as tokens, whose numbers are.

pub(crate) mod cursor;
pub(crate) mod peekable;
pub(crate) mod scan;
pub(crate) mod tokens;
