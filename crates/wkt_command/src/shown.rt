//! Text of strangers, as it is shown: it can't move what stands beside it, hide it, or speak to the terminal.
use std::fmt;
use std::fmt::Formatter;

/// Whether a character is shown as it is. The others, but for the tab and the space, are those that Unicode calls
/// controls (Cc), White_Space, Default_Ignorable_Code_Point, and the marks of annotations (U+FFF9 to U+FFFB).
pub fn is_plain(c: char) -> bool {
    match c {
        '\t' => true,
        '\0'..='\x1f' | '\x7f'..='\u{a0}' | '\u{ad}' | '\u{34f}' | '\u{61c}' => false,
        '\u{115f}'..='\u{1160}' | '\u{1680}' | '\u{17b4}'..='\u{17b5}' => false,
        '\u{180b}'..='\u{180f}' | '\u{2000}'..='\u{200f}' | '\u{2028}'..='\u{202f}' => false,
        '\u{205f}'..='\u{206f}' | '\u{3000}' | '\u{3164}' | '\u{fe00}'..='\u{fe0f}' => false,
        '\u{feff}' | '\u{ffa0}' | '\u{fff0}'..='\u{fffb}' => false,
        '\u{1bca0}'..='\u{1bca3}' | '\u{1d173}'..='\u{1d17a}' | '\u{e0000}'..='\u{e0fff}' => false,
        _ => true,
    }
}

/// How many characters it is shown as.
pub fn width(c: char) -> usize {
    match c {
        _ if is_plain(c) => 1,
        '\0'..='\x7f' => 4,
        '\u{80}'..='\u{ff}' => 6,
        '\u{100}'..='\u{fff}' => 7,
        '\u{1000}'..='\u{ffff}' => 8,
        _ => 9,
    }
}

/// Writes a character, if it isn't plain escaped, as `\x1b` or `\u{202e}`.
pub fn write_shown_char<W: fmt::Write>(c: char, f: &mut Formatter<W>) -> fmt::Result {
    let code = c as u32;
    if is_plain(c) {
        f.write_char(c)
    } else if code < 128 {
        write!(f, "\\x{code:02x}")
    } else {
        write!(f, "\\u{{{code:x}}}")
    }
}

/// Writes a text, in which what isn't plain is escaped.
pub fn write_shown<W: fmt::Write>(text: &str, f: &mut Formatter<W>) -> fmt::Result {
    for c in text.chars() {
        write_shown_char(c, f)?;
    }
    Ok(())
}

/// A text that is shown so.
#[derive(Clone, Copy)]
pub struct Shown<'a>(pub &'a str);

impl<'a> fmt::Display for Shown<'a> {
    fn fmt<W: fmt::Write>(&self, f: &mut Formatter<W>) -> fmt::Result {
        write_shown(self.0, f)
    }
}
