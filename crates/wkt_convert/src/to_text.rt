//! Types that are written as well-known text.
ghost use Rattle.std.specs.Prelude.{◌≡◌, IfOk, IfErr, OnOk, None};
ghost use Rattle.std.specs.String.{string_bytes};
ghost use Rattle.wkt_access.specs.Faults.{fault};
ghost use Rattle.wkt_access.specs.WellFormed.{IsLawful};
ghost use Rattle.wkt_access.specs.Texts.{shape_text};
ghost use Rattle.wkt_types.specs.Tree.{Tree, tree};
ghost use Rattle.wkt_types.specs.Values.{tree_shape};
ghost use Rattle.wkt_flat.specs.Shape.{flat_shape};
ghost use Rattle.wkt_convert.specs.Back.{back, wkt_text};
ghost use Rattle.wkt_convert.specs.Sent.{IsMemory, IsRefusal, Sends, IfShape};

use crate::flat_values::FlatValue;
use crate::send::{ToWktError, Written, send};
use crate::string_text::string_of;
use std::alloc::{AllocError, Global};
use wkt_access::Error;
use wkt_bytes::ByteSink;
use wkt_num::{TextSink, WktNum};
use wkt_types::Wkt;
use wkt_write::write_geometry;

/// A type that is written as well-known text: it has a `Wkt`, and its text is that of the `Wkt`.
///
/// The eleven flat types have it. Of theirs, `wkt_string` has no error but `Memory`, and `write_wkt`
/// none but `Io`.
///
/// ```text
/// let rect = Rect::<i32>::new(Coord { x: 4, y: 4 }, Coord { x: 8, y: 8 });
/// rect.write_wkt(alloc, &mut Counted::new(&mut bytes))?;
/// // POLYGON((8 4,8 8,4 8,4 4,8 4))
/// ```
pub trait ToWkt<T: WktNum> {
    /// What its `Wkt` holds.
    ghost held: { Self → Tree T };

    /// The `Wkt` of it.
    ///
    /// # Errors
    /// Out of memory.
    fn to_wkt(&self, alloc: Global) -> Result<Wkt<T>, AllocError>
        ensures { IfOk result (λ w. tree w ≡ held self.now) };

    /// The text of its `Wkt`.
    ///
    /// # Errors
    /// The error of the shape, for the first one in the order of the text; `Memory` when out of
    /// memory, for the string too. `FmtError` never comes.
    fn wkt_string(&self, alloc: Global) -> Result<String, Error>
        ensures text { IfOk result (λ s. string_bytes s ≡ shape_text T.num (tree_shape (held self.now))) }
        ensures sound { OnOk result (fault (tree_shape (held self.now)) ≡ None) }
        ensures lawful { OnOk result (IsLawful T.is_value (tree_shape (held self.now))) }
        ensures refused { IfErr result (IsRefusal (tree_shape (held self.now))) }
    {
        let wkt = self.to_wkt(alloc)?;
        string_of(alloc, &wkt)
    }

    /// Puts the text of its `Wkt` out. Ok means that the whole text is out.
    ///
    /// # Errors
    /// `Shape` for the error of the shape, or when out of memory: then nothing went out. `Io`
    /// where the writer failed, or took nothing (`WriteZero`): then a beginning of the text is out.
    fn write_wkt<W: ByteSink>(&self, alloc: Global, writer: &mut W) -> Result<(), ToWktError>
        ensures sends { Sends W.sink T.is_value T.num writer.old (tree_shape (held self.now)) writer.new result }
    {
        match self.to_wkt(alloc) {
            Ok(wkt) => send(&wkt, writer),
            Err(e) => Err(ToWktError::Shape(Error::Memory(e))),
        }
    }
}

impl<T: WktNum> Written for Wkt<T> {
    type T = T;

    ghost shape = { λ w. tree_shape (tree w) };

    fn write_text<W: TextSink>(&self, f: &mut W) -> Result<(), Error> {
        write_geometry(f, self)
    }
}

impl<G: FlatValue> Written for G {
    type T = G::T;

    ghost shape = { λ x. flat_shape (G.value x) };

    fn write_text<W: TextSink>(&self, f: &mut W) -> Result<(), Error> {
        self.write_flat(f)
    }
}

/// The eleven flat types. Their text is written directly, without a `Wkt` between.
impl<T: WktNum, G: FlatValue<T = T>> ToWkt<T> for G {
    ghost held = { λ x. back (G.value x) };

    fn to_wkt(&self, alloc: Global) -> Result<Wkt<T>, AllocError> {
        self.make_wkt(alloc)
    }

    /// The text of its `Wkt`, written without one.
    ///
    /// # Errors
    /// `Memory` when out of memory for the string, and no other.
    #[tactic(auto, using(crate::proofs::FlatAndBackShapes::text_of, crate::proofs::FlatAndBackShapes::sound_of, crate::proofs::FlatAndBackShapes::lawful_of))]
    fn wkt_string(&self, alloc: Global) -> Result<String, Error>
        ensures text { IfOk result (λ s. string_bytes s ≡ wkt_text T.num (G.value self.now)) }
        ensures sound { OnOk result (fault (tree_shape (back (G.value self.now))) ≡ None) }
        ensures lawful { OnOk result (IsLawful T.is_value (tree_shape (back (G.value self.now)))) }
        ensures refused { IfErr result (IsRefusal (tree_shape (back (G.value self.now)))) }
        ensures memory { IfErr result IsMemory }
    {
        string_of(alloc, self)
    }

    /// Puts the text of its `Wkt` out. It takes no memory.
    ///
    /// # Errors
    /// `Io` where the writer failed, or took nothing (`WriteZero`): then a beginning of the text is
    /// out. `Shape` never comes.
    fn write_wkt<W: ByteSink>(&self, _alloc: Global, writer: &mut W) -> Result<(), ToWktError>
        ensures sends { Sends W.sink T.is_value T.num writer.old (tree_shape (back (G.value self.now))) writer.new result }
        ensures never { IfShape result (λ _. ⊥) }
    {
        send(self, writer)
    }
}
