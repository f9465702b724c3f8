//! What the sinks of text hold after calls on them: each function does nothing, and its contract is the law.
ghost use Rattle.std.specs.Prelude.{ℕ, List};
ghost use Rattle.wkt_bytes.specs.Growing.{Grows, StringGrows, RevealingGrows, GatheredGrows, WrapperGrows, AddsPieces, CountedGrows, FormatterWrites};

use crate::sinks::ByteSink;
use std::fmt;
use wkt_num::TextSink;

/// After Ok the string of a `StringText` holds what it held and the whole text; after an error, what it held and a
/// beginning of the text.
pub fn string_grows()
    ensures { StringGrows }
{}

/// After Ok each sink that reveals its text holds what it held and the whole text; after an error, what it held and a
/// beginning of the text.
pub fn revealing_grows<S: TextSink>()
    ensures { RevealingGrows S }
{}

/// A `GatheredText`: the text of the sink below and what is held still have together grown by the whole text; after an
/// error the sink below has grown by a beginning of what was held and of the text.
pub fn gathered_grows<S: TextSink>()
    ensures { (text : S → List ℕ) → Grows S.sink text → GatheredGrows S.sink text }
{}

/// A `WriterWrapper` over a writer that reveals its bytes: these and what is held still have together grown by the whole
/// text; after an error a beginning of what was held and of the text is out.
#[tactic(auto, using(crate::proofs::SinkSteps::wrapper))]
pub fn wrapper_grows<W: ByteSink>()
    ensures { WrapperGrows W.sink }
{}

/// A `CountedText` over a writer whose text is known: after Ok it has grown by the whole text. After an error a beginning
/// of the text was written before the call that failed.
#[tactic(auto, using(crate::proofs::SinkSteps::counted))]
pub fn counted_grows<W: fmt::Write>()
    ensures { (text : W → List ℕ) → AddsPieces W.write_str_gives text → CountedGrows W.write_str_gives text }
{}

/// A `FormatterText`: after Ok exactly the text was written, whatever width, fill or precision was asked for.
pub fn formatter_writes<W: fmt::Write>()
    ensures { FormatterWrites W.write_str_gives }
{}
