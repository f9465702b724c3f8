//! The thirteen messages.
ghost use Rattle.std.specs.Prelude.{◌≡◌, ◌≢◌, ◌≤◌, IfNone, IfSome, Some};
ghost use Rattle.wkt_read.specs.Messages.{message_text, message_number, numbered};

use crate::error::ReadError;

/// Why a text is refused: one of the thirteen messages of `docs/GRAMMAR.md`.
#[derive(Clone, Copy, PartialEq, Eq, Debug)]
pub enum Message {
    /// A geometry has to begin with a word.
    Format,
    /// The word that the text begins with isn't ASCII.
    NonAscii,
    /// A word is no kind word.
    Kind,
    /// After a kind word alone stands a word other than `Z`, `M`, `ZM` and `EMPTY`.
    Word,
    /// After a kind word alone stands nothing, or a number that its type refuses.
    End,
    /// Neither `(` nor `EMPTY` stands where a parenthesis opens.
    Open,
    /// No `)` stands where a parenthesis closes.
    Close,
    /// The first number of a coordinate is missing.
    X,
    /// The second.
    Y,
    /// The number z.
    Z,
    /// The number m.
    M,
    /// A member of a collection has to begin with a word.
    Member,
    /// A number is none of the number type.
    BadNumber,
}

impl Message {
    /// The message as a text.
    pub fn text(self) -> &'static str
        ensures { result.now ≡ message_text self }
    {
        match self {
            Message::Format => "Invalid WKT format",
            Message::NonAscii => "Encountered non-ascii word",
            Message::Kind => "Invalid type encountered",
            Message::Word => "Unexpected word before open paren",
            Message::End => "End of stream",
            Message::Open => "Missing open parenthesis for type",
            Message::Close => "Missing closing parenthesis for type",
            Message::X => "Expected a number for the X coordinate",
            Message::Y => "Expected a number for the Y coordinate",
            Message::Z => "Expected a number for the Z coordinate",
            Message::M => "Expected a number for the M coordinate",
            Message::Member => "Expected a word in GEOMETRYCOLLECTION",
            Message::BadNumber => "Unable to parse input number as the desired output type",
        }
    }

    /// The number of the message in `docs/GRAMMAR.md`, 1 to 13.
    pub fn number(self) -> u32
        ensures number { result ≡ message_number self }
        ensures least { 1 ≤ result }
        ensures most { result ≤ 13 }
    {
        match self {
            Message::Format => 1,
            Message::NonAscii => 2,
            Message::Kind => 3,
            Message::Word => 4,
            Message::End => 5,
            Message::Open => 6,
            Message::Close => 7,
            Message::X => 8,
            Message::Y => 9,
            Message::Z => 10,
            Message::M => 11,
            Message::Member => 12,
            Message::BadNumber => 13,
        }
    }

    // The message of this number, if it has one.
    fn numbered(number: u32) -> Message
        ensures { result ≡ numbered number }
    {
        match number {
            1 => Message::Format,
            2 => Message::NonAscii,
            3 => Message::Kind,
            4 => Message::Word,
            5 => Message::End,
            6 => Message::Open,
            7 => Message::Close,
            8 => Message::X,
            9 => Message::Y,
            10 => Message::Z,
            11 => Message::M,
            12 => Message::Member,
            _ => Message::BadNumber,
        }
    }

    /// The message with this text, as `ReadError::Text` carries it; None of any other text.
    #[tactic(auto, using(crate::proofs::Refusals::none_first))]
    pub fn from_text(said: &str) -> Option<Message>
        ensures some { IfSome result (λ m. said.now ≡ message_text m) }
        ensures none { IfNone result ((m : Message) → said.now ≢ message_text m) }
        ensures exact { (m : Message) → said.now ≡ message_text m → result ≡ Some m }
    {
        let mut number = 1;
        'number: while number <= 13 {
            let message = Message::numbered(number);
            if message.text() == said {
                return Some(message);
            }
            number += 1;
        }
        None
    }
}

/// So that `?` passes a message on.
impl From<Message> for ReadError {
    ghost use Rattle.wkt_read.specs.Messages.{Says};

    ghost from_gives = { λ message error. Says error message };

    fn from(message: Message) -> Self {
        ReadError::Text(message.text())
    }
}
