// Number literals.
ghost use Rattle.definition.specs.Nodes.{try_parse_num_literal};
ghost use Rattle.definition.specs.Expressions.{num_literal};
ghost use Rattle.reading.specs.Does.{Does};
ghost use Rattle.cst.specs.Cst.{maybe};
ghost use Rattle.numerals.specs.Numbers.{radix_of};
ghost use Rattle.operands.specs.Number.{number_of};

use numerals::Base;
use reading::Parser;
use words::token;

// The number token at the cursor, passed: its value is made from the digits past the `prefix`.
fn number_of(p: &mut Parser, base: Base, prefix: usize) -> Option<usize>
    ensures { Does (number_of (radix_of base) prefix) p.old (maybe result) p.new }
{
    let token = p.state.cursor.at;
    stream::pass(p);
    Some(numerals::number(p, token, base, prefix))
}

// It answers the offset of the value, which is made where the token is passed.
fn try_parse_num_literal(p: &mut Parser) -> Option<usize>
    ensures { Does try_parse_num_literal p.old (maybe result) p.new }
{
    match stream::peek(p) {
        token::DECIMAL_LITERAL => number_of(p, Base::Decimal, 0),
        token::HEX_LITERAL => number_of(p, Base::Hexadecimal, 2),
        token::BIN_LITERAL => number_of(p, Base::Binary, 2),
        _ => None,
    }
}

// The node of a number, where one comes next.
pub fn num_literal(p: &mut Parser) -> Option<u32>
    ensures { Does num_literal p.old (maybe result) p.new }
{
    let Some(offset) = try_parse_num_literal(p) else {
        return None;
    };
    let payload = crate::payload(offset);
    Some(cst::alloc_last_token_as_node(p, words::node::NUM_LITERAL, payload))
}
