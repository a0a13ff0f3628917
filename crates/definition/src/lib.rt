// The definition of the parser: its types are declared here, the rest stands in specs/. Of its functions only the
// cursor's methods stand here, beside their type.
#![tactic(auto)]

ghost use Rattle.std.specs.Prelude.{◌≡◌, [], ◌-◌, ◌≤◌};
ghost use Rattle.definition.specs.Prog.{kind_at, advanced};
ghost use Rattle.definition.specs.Quiet.{is_quiet, quiet_end};

// Where reading stands: the number of the next token, and the number that it stops at.
#[derive(Clone, Copy)]
pub struct Cursor {
    pub at: u32,
    pub end: u32,
}

// Where reading stands, and how much of each slice is written.
#[derive(Clone, Copy)]
pub struct State {
    pub cursor: Cursor,
    // `last_unexpected`: 0, or one more than the number of the token that was reported.
    pub mark: usize,
    pub nodes: u32,
    // In words.
    pub values: usize,
    pub reports: usize,
}

// `ParseExprMode`
#[derive(Clone, Copy)]
pub enum Mode {
    AllowAll,
    NoPostFixCurlyBrace,
}

// `UnfinishedNode`: a node's number, and its last child so far; 0 is none.
#[derive(Clone, Copy)]
pub struct Unfinished {
    pub node: u32,
    pub last: u32,
}

// The cursor of token_items.rs: a value whose methods hand the next cursor back. It never moves backwards.
impl Cursor {
    // The kind of its token; where it stops it is Eof.
    pub fn peek(self, tokens: &[u32]) -> u32
        ensures { result ≡ kind_at [] tokens.now self }
    {
        let at = self.at;
        if at < self.end {
            let i = at as usize;
            if i < tokens.len() {
                return words::token_kind(tokens[i]);
            }
        }
        words::token::EOF
    }

    // At the next token.
    pub fn advance(self) -> Cursor
        ensures { (result ≡ advanced self) × (self.at ≤ result.at) }
    {
        let at = self.at;
        if at < self.end {
            return Cursor {
                at: at + 1,
                end: self.end,
            };
        }
        self
    }

    // Past trivia that is no error: blanks and comments.
    pub fn skip_trivia(self, tokens: &[u32]) -> Cursor
        ensures { (result ≡ quiet_end tokens.now (self.end - self.at) self) × (self.at ≤ result.at) }
    {
        let mut c = self;
        while c.at < c.end {
            if is_quiet(c.peek(tokens)) {
                c = c.advance();
            } else {
                return c;
            }
        }
        c
    }
}

// Whether a token is trivia, and no error.
fn is_quiet(kind: u32) -> bool
    ensures { result ≡ is_quiet kind }
{
    if kind == words::token::WHITESPACE {
        return true;
    }
    if kind == words::token::LINE_COMMENT {
        return true;
    }
    kind == words::token::BLOCK_COMMENT
}
