// String literals. The bytes are pushed in place, behind the place of the next value's first word; the definition stores them
// at once, at the end.
ghost use Rattle.definition.specs.Strings.{try_parse_string_literal};
ghost use Rattle.reading.specs.Does.{Does};
ghost use Rattle.cst.specs.Cst.{maybe};
ghost use Rattle.operands.specs.Turns.{Passed, Turned};
ghost use Rattle.operands.specs.Gathers.{Gathers, StringMade};

use reading::Parser;
use words::token;

// String tokens so far: how many bytes they decode to, if there is room for them, and the token number past the last one.
#[derive(Clone, Copy)]
struct Gathered {
    pub count: Option<usize>,
    pub end: Option<u32>,
}

// The token at the cursor, passed after it was decoded.
fn pass_token(p: &mut Parser, count: Option<usize>) -> Gathered
    ensures { Passed count p.old result.end result.count p.new }
{
    stream::pass(p);
    let end = Some(p.state.cursor.at);
    Gathered { count, end }
}

// One turn of the loop below, whose bytes go behind `place`: a string token, or that none comes next.
fn string_turn(p: &mut Parser, place: usize, count: Option<usize>) -> Gathered
    ensures { Turned place count p.old result.end result.count p.new }
{
    let found = stream::peek(p);
    let n = p.state.cursor.at;
    match found {
        token::LOOSE_STRING_LITERAL => {
            let more = decoder::decode_string(p, place, count, n);
            pass_token(p, more)
        }
        token::LOOSE_HEX_STRING_LITERAL => {
            let more = decoder::decode_hex(p, place, count, n);
            pass_token(p, more)
        }
        token::MULTILINE_STRING_ERROR | token::UNCLOSED_STRING_ERROR => pass_token(p, count),
        _ => Gathered { count, end: None },
    }
}

// Neighbouring string tokens, trivia between them.
fn gather(p: &mut Parser) -> Gathered
    ensures { Gathers p.old result.end result.count p.new }
{
    let place = p.state.values;
    let mut count = Some(0);
    let mut end = None;
    for _turn in 0..stream::turns_of(p.tokens) {
        if p.is_refused() {
            break;
        }
        let turn = string_turn(p, place, count);
        count = turn.count;
        let Some(past) = turn.end else { break };
        end = Some(past);
    }
    Gathered { count, end }
}

// The node of a string from token `start` to token `end`, whose bytes were pushed: the value comes before the node.
fn string_node(p: &mut Parser, count: Option<usize>, start: u32, end: u32) -> Option<u32>
    ensures { StringMade start end count p.old (maybe result) p.new }
{
    if p.is_refused() {
        return None;
    }
    let made = decoder::string_value(p, count);
    let offset = crate::payload(made);
    let u = cst::open_from(p, start, words::node::STRING_LITERAL, offset);
    Some(cst::close_node_at(p, u, end))
}

pub fn try_parse_string_literal(p: &mut Parser) -> Option<u32>
    ensures { Does try_parse_string_literal p.old (maybe result) p.new }
{
    stream::peek(p);
    let start = p.state.cursor.at;
    let gathered = gather(p);
    let Some(end) = gathered.end else {
        return None;
    };
    string_node(p, gathered.count, start, end)
}
