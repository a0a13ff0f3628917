// What a lexer error was, by its number the detail of a report of kind 1: "order in `ErrorToken` from 0" (01, Words that are lent);
// `ErrorToken` of lexer.rs.

ghost use Rattle.std.specs.Prelude.{◌≡◌};
ghost use Rattle.words.specs.ErrorToken.{error_number};

#[derive(Clone, Copy, Debug, PartialEq, Eq)]
pub enum ErrorToken {
    InvalidChar,
    MalformedIdent,
    MultilineString,
    UnclosedBlockComment,
    UnclosedString,
    AtWithoutIdent,
}

impl ErrorToken {
    pub fn number(self) -> u32
        ensures { result ≡ error_number self }
    {
        self as u32
    }
}
