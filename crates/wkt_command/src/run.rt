//! A run over files.
ghost use Rattle.std.specs.Prelude.{◌≡◌, ◌≤◌, [], ◌∷◌, ◌++◌, IfOk, IsTrue, IsUtf8, ◌↔◌, OnOk, Some, length, take, false};
ghost use Rattle.std.specs.Io.KnownBytes.{Appends};
ghost use Rattle.wkt_lines.specs.Laws.{IsWholeLines};
ghost use Rattle.wkt_lines.specs.Reading.{to_come};
ghost use Rattle.wkt_command.specs.Canon.{out_bytes, refused_line, text_of, IsNotRead, IsSkipped, Canonizes, CanonizesAll};
ghost use Rattle.wkt_options.specs.declared.options.Command.TheVariants.{Canon};

use crate::csv::Tables;
use crate::dialects::verdict_in;
use crate::dups::{Seen, put_again};
use crate::error::CommandError;
use crate::input::{Input, NulLines, shown_name, swap_ends};
use crate::output::{Output, put_canonical, put_kinds, put_refused};
use crate::place::place_after;
use crate::progress::{Progress, Tally};
use crate::report::{Origin, TextRefusal, count_line};
use crate::row::push_in_form;
use crate::shown::Shown;
use crate::verdict::{Verdict, whole_lines_at, written};
use std::alloc::{AllocError, Global};
use std::io::{Stderr, Stdout, Write};
use wkt_bytes::{ByteSource, Counted, ReadAllError, read_all};
use wkt_canonical::make_room;
use wkt_lines::Lines;
use wkt_options::{Command, Ends, Form, Options};
use wkt_read::words::is_blank;

/// A run over files, and what came of it so far.
#[derive(Drop)]
pub struct Run<'a, W: Write + Drop> {
    alloc: Global,
    options: &'a Options,
    out: Output<W>,
    // Where refusals are printed, except by `check`. Where it fails, the status still says that texts were refused.
    aside: Output<Stderr>,
    room: Vec<u8>,
    report: String,
    seen: Seen,
    tally: Tally,
    progress: Progress,
    tables: Tables,
    // The number of the file that is read, and the number of its next text's first line.
    file: usize,
    line: u64,
}

impl<'a> Run<'a, Stdout> {
    /// # Errors
    /// Out of memory, or the system gives no random numbers.
    pub fn new(rt: &HostRuntime, options: &'a Options) -> Result<Run<'a, Stdout>, CommandError> {
        let alloc = rt.alloc();
        Ok(Run {
            alloc,
            options,
            out: Output::new(alloc, rt.stdout()).map_err(CommandError::output)?,
            aside: Output::new(alloc, rt.stderr()).map_err(CommandError::output)?,
            room: Vec::new(alloc),
            report: String::new(alloc),
            seen: Seen::new(rt).map_err(CommandError::input)?,
            tally: Tally {
                texts: 0,
                refused: 0,
            },
            progress: Progress::new(rt, Some(false), 0),
            tables: Tables::new(),
            file: 0,
            line: 1,
        })
    }
}

impl<'a, W: Write + Drop> Run<'a, W> {
    /// How many texts there were, and how many of them were refused.
    pub fn tally(&self) -> Tally {
        self.tally
    }

    /// Whether no more texts are looked at: `check` has printed as many refusals as were asked for.
    pub fn is_over(&self) -> bool
        ensures { self.now.options.now.command ≡ Canon → result ≡ false }
    {
        let refused = self.tally.refused;
        self.options.command == Command::Check
            && (self.options.quiet && refused > 0
                || self.options.max > 0 && refused >= self.options.max)
    }

    /// Reads a file, whose number in the run is given, and returns its texts.
    ///
    /// # Errors
    /// The file can't be read, standard output fails, or out of memory.
    pub fn read_file(
        &mut self,
        rt: &HostRuntime,
        file: usize,
        name: &str,
    ) -> Result<(), CommandError> {
        let mut input = Input::open(rt, name).map_err(CommandError::input)?;
        self.line = 1;
        if let Some(part) = self.options.part {
            let before = input
                .go_to(part, !self.options.quiet)
                .map_err(CommandError::input)?;
            self.line = before.saturating_add(1);
        }
        self.progress = Progress::new(rt, self.options.progress, input.size());
        self.file = file;
        let shown = Shown(shown_name(self.options.operands.get(file)));
        let shown = format!(in self.alloc; "{shown}")?;
        let name = match self.options.form {
            Form::Text => shown.as_str(),
            _ => name,
        };
        let source = Counted::new(input);
        let read = match self.options.ends {
            Ends::Line => self.read_lines(rt, name, Lines::new(self.alloc, source)),
            Ends::Nul => self.read_lines(rt, name, Lines::new(self.alloc, NulLines::new(source))),
            Ends::File => self.read_whole(rt, name, source),
        };
        self.progress.wipe(rt);
        if self.tables.is_first() {
            let shown = shown.as_str();
            let words = format!(in self.alloc;
                "wkt: {shown} looks like comma-separated values: python3 -m wkt.table reads a column of them\n"
            )?;
            let _ = self.aside.put(words.as_bytes());
        }
        let _ = self.aside.finish();
        read
    }

    // Where texts end at a NUL, `NulLines` has swapped it with the line feed, which is undone for each text.
    fn read_lines<R: ByteSource + Drop>(
        &mut self,
        rt: &HostRuntime,
        name: &str,
        lines: Lines<R>,
    ) -> Result<(), CommandError>
        ensures { self.old.options.now.command ≡ Canon → OnOk result (CanonizesAll self.old.options.now
            (to_come R.left lines) (out_bytes W.contents self.old.out) (out_bytes W.contents self.new.out)) }
    {
        let mut lines = lines;
        let mut text = Vec::new(self.alloc);
        'lines: for _ in 0..u64::MAX {
            if self.is_over() {
                return Ok(());
            }
            match self.take_whole(rt, name, lines.rest()) {
                Ok(taken) => lines.pass(taken),
                Err(error) => return Err(error),
            }
            match lines.advance() {
                Ok(true) => {}
                Ok(false) => return Ok(()),
                Err(error) => return Err(CommandError::from(error)),
            }
            match self.take_line(rt, name, lines.line(), &mut text) {
                Ok(()) => {}
                Err(error) => return Err(error),
            }
        }
        // The source never ends.
        Err(CommandError::Memory(AllocError))
    }

    /// Answers the first lines of these, up to the first that is refused or has no line feed, and returns how many bytes
    /// they take: most lines, in less time than one by one.
    fn take_whole(
        &mut self,
        rt: &HostRuntime,
        name: &str,
        lines: &[u8],
    ) -> Result<usize, CommandError>
        ensures options { self.new.options ≡ self.old.options }
        ensures within { IfOk result (λ taken. taken ≤ length lines.now) }
        ensures whole { IfOk result (λ taken. IsWholeLines (take taken lines.now)) }
        ensures canon { self.old.options.now.command ≡ Canon → IfOk result (λ taken. CanonizesAll self.old.options.now
            (Some (take taken lines.now)) (out_bytes W.contents self.old.out) (out_bytes W.contents self.new.out)) }
    {
        // Where texts end at a NUL, these are none yet.
        if self.options.ends != Ends::Line {
            return Ok(0);
        }
        if let Err(error) = make_room(&mut self.room, 0, lines.len()) {
            return Err(CommandError::Memory(error));
        }
        let options = self.options;
        let whole = whole_lines_at(options.places, options.front, lines, &mut self.room);
        match self.put_whole(name, whole.len) {
            Ok(()) => {}
            Err(error) => return Err(error),
        }
        match self.out.end_text() {
            Ok(()) => {}
            Err(error) => return Err(CommandError::output(error)),
        }
        self.tally.texts = self.tally.texts.saturating_add(whole.lines as u64);
        self.line = self.line.saturating_add(whole.lines as u64);
        self.progress.advance(rt, whole.taken, self.tally);
        Ok(whole.taken)
    }

    /// Answers texts that are read, whose canonical texts have so many bytes in the room, each with a line feed.
    fn put_whole(&mut self, name: &str, len: usize) -> Result<(), CommandError>
        requires utf8 { IsUtf8 (take len self.old.room.items) }
        ensures options { self.new.options ≡ self.old.options }
        ensures canon { self.old.options.now.command ≡ Canon → OnOk result
            (Appends (out_bytes W.contents self.old.out) (out_bytes W.contents self.new.out)
            (take len self.old.room.items)) }
    {
        if self.options.command != Command::Canon {
            return self.put_each(name, len);
        }
        match self.out.put(written(&self.room, len)) {
            Ok(()) => Ok(()),
            Err(error) => Err(CommandError::output(error)),
        }
    }

    /// Answers the texts whose canonical texts have so many bytes in the room, with a line feed between them.
    fn put_each(&mut self, name: &str, len: usize) -> Result<(), CommandError>
        requires utf8 { IsUtf8 (take len self.old.room.items) }
        ensures options { self.new.options ≡ self.old.options }
    {
        let canonical = written(&self.room, len);
        match self.options.command {
            Command::Kind => match put_kinds(&mut self.out, canonical) {
                Ok(()) => Ok(()),
                Err(error) => Err(CommandError::output(error)),
            },
            Command::Dups => {
                let operands = self.options.operands.as_slice();
                let line = self.line;
                put_again(
                    &mut self.out,
                    &mut self.seen,
                    operands,
                    Origin { name, line },
                    self.file,
                    canonical,
                )
            }
            _ => Ok(()),
        }
    }

    /// Answers the text that a line stands for. What the vector holds means nothing.
    fn take_line(
        &mut self,
        rt: &HostRuntime,
        name: &str,
        line: &[u8],
        text: &mut Vec<u8>,
    ) -> Result<(), CommandError>
        ensures options { self.new.options ≡ self.old.options }
        ensures canon { self.old.options.now.command ≡ Canon → OnOk result (Canonizes self.old.options.now
            (text_of self.old.options.now.ends line.now)
            (out_bytes W.contents self.old.out) (out_bytes W.contents self.new.out)) }
    {
        if self.options.ends != Ends::Nul {
            return self.take(rt, name, line);
        }
        text.clear();
        if let Err(error) = text.extend_from_slice(line) {
            return Err(CommandError::Memory(error));
        }
        swap_ends(text.as_mut_slice());
        self.take(rt, name, text.as_slice())
    }

    fn read_whole<R: ByteSource + Drop>(
        &mut self,
        rt: &HostRuntime,
        name: &str,
        source: R,
    ) -> Result<(), CommandError> {
        let mut source = source;
        let text = read_all(self.alloc, &mut source)?;
        self.take(rt, name, text.as_slice())
    }

    /// Answers a text, and goes on to the next.
    fn take(&mut self, rt: &HostRuntime, name: &str, text: &[u8]) -> Result<(), CommandError>
        ensures options { self.new.options ≡ self.old.options }
        ensures canon { self.old.options.now.command ≡ Canon → OnOk result (Canonizes self.old.options.now text.now
            (out_bytes W.contents self.old.out) (out_bytes W.contents self.new.out)) }
    {
        self.tally.texts = self.tally.texts.saturating_add(1);
        match self.answer(rt, name, text) {
            Ok(()) => {}
            Err(error) => return Err(error),
        }
        match self.out.end_text() {
            Ok(()) => {}
            Err(error) => return Err(CommandError::output(error)),
        }
        let lines = match self.options.ends {
            Ends::Line => 1,
            _ => place_after(text).line as u64,
        };
        self.line = self.line.saturating_add(lines);
        self.progress
            .advance(rt, text.len().saturating_add(1), self.tally);
        Ok(())
    }

    fn answer(&mut self, rt: &HostRuntime, name: &str, text: &[u8]) -> Result<(), CommandError>
        ensures options { self.new.options ≡ self.old.options }
        ensures canon { self.old.options.now.command ≡ Canon → OnOk result (Canonizes self.old.options.now text.now
            (out_bytes W.contents self.old.out) (out_bytes W.contents self.new.out)) }
    {
        let origin = Origin {
            name,
            line: self.line,
        };
        self.report.clear();
        let text = match str::from_utf8(text) {
            Ok(text) => text,
            Err(error) => {
                let before = text.get(..error.valid_up_to()).unwrap_or(text);
                let refusal = TextRefusal::NotUtf8(before);
                push_in_form(&mut self.report, self.alloc, self.options, origin, refusal)?;
                return self.refuse(rt);
            }
        };
        let places = self.options.places;
        let front = self.options.front;
        let dialects = self.options.dialects;
        let mut read = Vec::new(self.alloc);
        let room = &mut self.room;
        match verdict_in(self.alloc, dialects, text, places, front, &mut read, room)? {
            Verdict::Read(len) => self.put_answer(name, len),
            Verdict::Refused(refused) => {
                self.refuse_or_pass(rt, origin, text, TextRefusal::Text(refused))
            }
            Verdict::Rest(end) => {
                self.refuse_or_pass(rt, origin, text, TextRefusal::Rest(text, end))
            }
        }
    }

    /// Whether the text is white space alone, and such texts are passed over.
    fn is_skipped(&self, text: &str) -> bool
        ensures { IsTrue result ↔ IsSkipped self.now.options.now text.now }
    {
        if !self.options.skip_blank {
            return false;
        }
        is_blank(text.as_bytes())
    }

    /// Passes over a text that isn't read, where it is blank and such texts are passed over, and refuses another.
    fn refuse_or_pass(
        &mut self,
        rt: &HostRuntime,
        origin: Origin<'_>,
        text: &str,
        refusal: TextRefusal<'_>,
    ) -> Result<(), CommandError>
        ensures options { self.new.options ≡ self.old.options }
        ensures canon { self.old.options.now.command ≡ Canon → IsNotRead self.old.options.now text.now → OnOk result
            (Canonizes self.old.options.now text.now
            (out_bytes W.contents self.old.out) (out_bytes W.contents self.new.out)) }
    {
        if self.is_skipped(text) {
            self.tally.texts = self.tally.texts.saturating_sub(1);
            return Ok(());
        }
        self.refuse_text(rt, origin, refusal)
    }

    /// Makes the report of a text that is refused, and refuses it.
    fn refuse_text(
        &mut self,
        rt: &HostRuntime,
        origin: Origin<'_>,
        refusal: TextRefusal<'_>,
    ) -> Result<(), CommandError>
        ensures options { self.new.options ≡ self.old.options }
        ensures canon { self.old.options.now.command ≡ Canon → OnOk result
            (Appends (out_bytes W.contents self.old.out) (out_bytes W.contents self.new.out)
            (refused_line self.old.options.now.refused)) }
    {
        if !self.options.quiet {
            push_in_form(&mut self.report, self.alloc, self.options, origin, refusal)?;
            if let TextRefusal::Text(refused) = refusal {
                if self.options.ends == Ends::Line {
                    self.tables.look(refused.text.as_bytes());
                }
            }
        }
        self.refuse(rt)
    }

    /// Answers a text that is read, whose canonical text has so many bytes in the room.
    fn put_answer(&mut self, name: &str, len: usize) -> Result<(), CommandError>
        requires utf8 { IsUtf8 (take len self.old.room.items) }
        ensures options { self.new.options ≡ self.old.options }
        ensures canon { self.old.options.now.command ≡ Canon → OnOk result
            (Appends (out_bytes W.contents self.old.out) (out_bytes W.contents self.new.out)
            (take len self.old.room.items ++ 10 ∷ [])) }
    {
        if self.options.command != Command::Canon {
            return self.put_each(name, len);
        }
        match put_canonical(&mut self.out, written(&self.room, len)) {
            Ok(()) => Ok(()),
            Err(error) => Err(CommandError::output(error)),
        }
    }

    /// Counts a refused text, and prints its report.
    fn refuse(&mut self, rt: &HostRuntime) -> Result<(), CommandError>
        ensures options { self.new.options ≡ self.old.options }
        ensures canon { self.old.options.now.command ≡ Canon → OnOk result
            (Appends (out_bytes W.contents self.old.out) (out_bytes W.contents self.new.out)
            (refused_line self.old.options.now.refused)) }
    {
        self.tally.refused = self.tally.refused.saturating_add(1);
        match put_refused(&mut self.out, &self.options.refused) {
            Ok(()) => {}
            Err(error) => return Err(CommandError::output(error)),
        }
        if self.options.quiet {
            return Ok(());
        }
        self.progress.wipe(rt);
        if self.options.command == Command::Check {
            return self
                .out
                .put(self.report.as_bytes())
                .map_err(CommandError::output);
        }
        let _ = self.aside.put(self.report.as_bytes());
        let _ = self.aside.end_text();
        Ok(())
    }

    /// Prints how many texts were refused, and writes out what is left.
    ///
    /// # Errors
    /// Standard output fails, or out of memory.
    pub fn finish(&mut self) -> Result<(), CommandError> {
        if !self.options.quiet {
            let options = self.options;
            let count = count_line(self.alloc, self.tally, options.ends, self.is_over())?;
            if options.command == Command::Check && options.form == Form::Text {
                self.out
                    .put(count.as_bytes())
                    .map_err(CommandError::output)?;
            } else if self.tally.refused > 0 {
                let _ = self.aside.put(count.as_bytes());
                let _ = self.aside.finish();
            }
        }
        self.put_out()
    }

    /// Writes out what is gathered.
    ///
    /// # Errors
    /// Standard output fails.
    pub fn put_out(&mut self) -> Result<(), CommandError> {
        self.out.finish().map_err(CommandError::output)
    }
}
