// Views of declarations, imports, blocks and statements, on any words and any node number.
// The answer is the thing, none, or refusal 8 where words that a view looks at were altered.
#![tactic(auto, unfolding(looking::specs::View::and_then))]

pub mod declarations;
pub mod imports;
pub mod statements;
