//! MLIR's generic textual form, as callers name it: a text read as a flat tree and spelled again, what the names in it mean, and its tokens.
//!
//! Nothing is written here: each item stands in a crate whose name begins with `ir_text_`, and has one path.
#![tactic(auto)]

/// The flat tree of a text: a row for each part, and the piece of the text that it is.
pub mod tree {
    pub use ir_text_reader::{Fault, Tree, parse};
    pub use ir_text_tree::{Part, Row, Span, Wanted};
}

/// The text of a tree.
pub mod spelling {
    pub use ir_text_spelling::{spell, spell_to};
}

/// What the names in a tree mean, and the first that means nothing or is given twice.
pub mod names {
    pub use ir_text_names::{
        Fault, Names, RowTable, Wrong, blocks, keys, operand_types, resolve, result_types, values,
    };
}

/// The tokens of a text.
pub mod tokens {
    pub use ir_text_tokens::{Bracket, Fault, Kind, Mark, Sign, Token, next_token, spell, tokens};
}

/// Where a byte of a text stands.
pub mod place {
    pub use ir_text_tokens::line_and_column;
}

/// Laws about the definitions that the contracts cite.
pub mod laws {
    pub use ir_text_names::laws::{names_one_block, names_one_value};
    pub use ir_text_spelling::laws::tree_text_spells_again;
    pub use ir_text_tokens::laws::{
        covering_goes_forward, covering_is_read, read_has_spelling, reading_covers, scanning_reads,
        spelling_is_kept, spelling_is_read,
    };
    pub use ir_text_tree::laws::{
        one_tree_is_spelled, parsed_is_tree, rows_go_forward, tree_is_parsed,
    };
}
