// The parser: what it is lent, where it stands, and whether it was refused. Each function of the parser takes it first.
#![tactic(auto)]

ghost use Rattle.std.specs.Prelude.{◌≡◌};
ghost use Rattle.reading.specs.Standing.{is_refused, refused_at};

pub mod parser;
pub mod report;

pub use parser::Parser;
use words::Refusal;

// "Priorities 19 and 21 belong to the parser's type as constants" (01).
impl Parser<'_> {
    pub const ZERO: u32 = 0;

    pub const UNARY_PRIORITY: u32 = 19;

    pub const MEMBER_PRIORITY: u32 = 21;

    pub const FN_CALL_PRIORITY: u32 = 21;

    pub const STRUCT_LITERAL_PRIORITY: u32 = 21;

    pub fn is_refused(&self) -> bool
        ensures { result ≡ is_refused self.now }
    {
        self.refused.is_some()
    }

    // Refused from here on.
    pub fn refuse(&mut self, refusal: Refusal)
        ensures { self.new ≡ refused_at self.old refusal }
    {
        self.refused = Some(refusal.at(self.state.cursor.at));
    }
}
