//! The words of a module text, by kind.
ghost use Rattle.std.specs.Prelude.{◌≡◌};
ghost use Rattle.words.specs.Spelling.{keyword_text};

/// A sign, by what it is used for.
#[derive(Clone, Copy, PartialEq, Eq, Debug)]
pub enum Sign {
    /// `.`
    Dot,
    /// `:`
    Colon,
    /// `;`
    Semicolon,
    /// `,`
    Comma,
    /// `(`
    LeftParen,
    /// `)`
    RightParen,
    /// `[`
    LeftBracket,
    /// `]`
    RightBracket,
    /// `/`
    Slash,
    /// `\`
    Backslash,
    /// `$`
    Dollar,
    /// `&`
    And,
    /// `+`
    Or,
    /// `@`
    Xor,
    /// `^`
    Not,
    /// `*`
    Star,
    /// `=`
    Equal,
    /// `<=`
    Transfer,
    /// `=>`
    Branch,
    /// `&/`
    AndReduce,
    /// `+/`
    OrReduce,
    /// `@/`
    XorReduce,
}

/// A capital word of the grammar, which no name may be, in either case of its letters.
#[derive(Clone, Copy, PartialEq, Eq, Debug)]
pub enum Keyword {
    Module,
    Inputs,
    Outputs,
    Memory,
    Buses,
    Body,
    Sequence,
    EndSequence,
    ControlReset,
    Null,
    DeadEnd,
    End,
}

impl Keyword {
    /// All keywords.
    pub(crate) const ALL: [Keyword; 12] = [
        Keyword::Module,
        Keyword::Inputs,
        Keyword::Outputs,
        Keyword::Memory,
        Keyword::Buses,
        Keyword::Body,
        Keyword::Sequence,
        Keyword::EndSequence,
        Keyword::ControlReset,
        Keyword::Null,
        Keyword::DeadEnd,
        Keyword::End,
    ];

    /// How the keyword is written in capital letters.
    pub(crate) fn text(self) -> &'static [u8]
        ensures { result.now ≡ keyword_text self }
    {
        match self {
            Keyword::Module => b"MODULE",
            Keyword::Inputs => b"INPUTS",
            Keyword::Outputs => b"OUTPUTS",
            Keyword::Memory => b"MEMORY",
            Keyword::Buses => b"BUSES",
            Keyword::Body => b"BODY",
            Keyword::Sequence => b"SEQUENCE",
            Keyword::EndSequence => b"ENDSEQUENCE",
            Keyword::ControlReset => b"CONTROLRESET",
            Keyword::Null => b"NULL",
            Keyword::DeadEnd => b"DEADEND",
            Keyword::End => b"END",
        }
    }
}

/// What a word is.
#[derive(Clone, Copy, PartialEq, Eq, Debug)]
pub enum Kind {
    Reserved(Keyword),
    /// A name of so many bytes.
    Name(usize),
    /// An integer, by its value.
    Integer(u16),
    Mark(Sign),
}

/// A word as the grammar sees it: what it is, and the place of its first byte in the text.
#[derive(Clone, Copy, PartialEq, Eq, Debug)]
pub struct Token {
    pub kind: Kind,
    pub place: usize,
}
