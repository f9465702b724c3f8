//! Why a text is refused, by the words of `docs/names.tsv`.
use wkt_explain::Hint;
use wkt_read::Expected;

/// What is expected where more follows the geometry.
pub const END: &str = "the end of the text";

/// The cause of a refusal of which only is known what was expected.
pub fn expected_cause(expected: Expected) -> &'static str {
    match expected {
        Expected::Kind => "expected_kind",
        Expected::Member => "expected_member",
        Expected::Dimension => "expected_dimension",
        Expected::Opening => "expected_opening",
        Expected::Point => "expected_point",
        Expected::X => "expected_x",
        Expected::Y => "expected_y",
        Expected::Z => "expected_z",
        Expected::M => "expected_m",
        Expected::More => "expected_more",
        Expected::Closing => "expected_closing",
    }
}

/// The cause of a refusal that has a hint.
pub fn hint_cause(hint: Hint) -> &'static str {
    match hint {
        Hint::ByteOrderMark => "byte_order_mark",
        Hint::Hexadecimal => "hexadecimal",
        Hint::Srid => "srid",
        Hint::Curve => "curve",
        Hint::Surface => "surface",
        Hint::Exponent => "exponent",
        Hint::NoNumber => "no_number",
        Hint::Places(_) => "places",
        Hint::Large => "large",
        Hint::Dimension => "dimension",
        Hint::Empty => "empty",
        Hint::Fewer => "fewer",
        Hint::Comma => "comma",
        Hint::Missing => "missing",
        Hint::Quotes => "quotes",
        Hint::NoBreakSpace => "no_break_space",
        Hint::Minus => "minus",
        Hint::Box => "box",
        Hint::Braces => "braces",
        Hint::NoKind => "no_kind",
        Hint::Parenthesis => "parenthesis",
    }
}
