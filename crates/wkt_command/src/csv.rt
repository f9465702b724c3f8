//! Lines that look like rows of comma-separated values.
ghost use Rattle.std.specs.Prelude.{◌≡◌, ◌==◌, ◌||◌, ◌&&◌, not, true, false};
ghost use Rattle.wkt_command.specs.Row.{BeginsKind, IsRow};

use wkt_read::words::kind_front;

/// Whether a file is a table, by its refused lines, and whether the run has said so of one.
#[derive(Clone, Copy)]
pub struct Tables {
    is_table: bool,
    is_told: bool,
}

impl Tables {
    pub fn new() -> Tables
        ensures table { result.is_table ≡ false }
        ensures told { result.is_told ≡ false }
    {
        Tables {
            is_table: false,
            is_told: false,
        }
    }

    /// Looks at a refused line of the file.
    pub fn look(&mut self, line: &[u8])
        ensures kept { self.old.is_table ≡ true → self.new.is_table ≡ true }
        ensures row { self.old.is_table ≡ false → IsRow 10 line.now self.new.is_table }
        ensures told { self.new.is_told ≡ self.old.is_told }
    {
        if !self.is_table {
            self.is_table = looks_like_row(line);
        }
    }

    /// Whether the file that ends here is the first of the run that is a table.
    pub fn is_first(&mut self) -> bool
        ensures first { result ≡ (self.old.is_table && not self.old.is_told) }
        ensures told { self.new.is_told ≡ (self.old.is_told || self.old.is_table) }
        ensures table { self.new.is_table ≡ false }
    {
        let is_first = self.is_table && !self.is_told;
        self.is_told = self.is_told || self.is_table;
        self.is_table = false;
        is_first
    }
}

/// Whether the first kind of geometry that the line names stands right behind a comma or a quotation mark. A word that
/// begins in another isn't looked at.
pub fn looks_like_row(line: &[u8]) -> bool
    ensures { IsRow 10 line.now result }
{
    let mut before = b'\n';
    let mut rest = line;
    'bytes: while let Some((byte, others)) = rest.split_first() {
        if begins_kind(before, rest) {
            return begins_field(before);
        }
        before = *byte;
        rest = others;
    }
    false
}

/// Whether a kind's word begins here, behind this byte.
fn begins_kind(before: u8, rest: &[u8]) -> bool
    ensures { BeginsKind before rest.now result }
{
    if before.is_ascii_alphabetic() {
        return false;
    }
    match kind_front(rest) {
        Some(_) => true,
        None => false,
    }
}

/// Whether a field of a row may begin behind this byte.
fn begins_field(before: u8) -> bool
    ensures { result ≡ (before == 44 || before == 34) }
{
    before == b',' || before == b'"'
}
