// Operands that are literals: numbers and strings (`try_parse_num_literal` of parser/mod.rs, parser/strings.rs).
#![tactic(auto)]

ghost use Rattle.std.specs.Prelude.{◌≡◌, ◌%◌};
ghost use Rattle.cst.specs.Payload.{payloads};

pub mod numbers;
pub mod strings;

// The payloads that a node's first word can tell.
const PAYLOADS: usize = 67108864;

// An offset as a node's payload. What doesn't fit is cut off, as it is where the node is stored.
fn payload(offset: usize) -> u32
    ensures { result ≡ offset % payloads }
{
    (offset % PAYLOADS) as u32
}
