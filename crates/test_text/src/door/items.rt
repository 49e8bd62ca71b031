//! Each item of the door, by its path.

use ir_text::laws::{
    covering_goes_forward, covering_is_read, names_one_block, names_one_value, one_tree_is_spelled,
    parsed_is_tree, read_has_spelling, reading_covers, rows_go_forward, scanning_reads,
    spelling_is_kept, spelling_is_read, tree_is_parsed, tree_text_spells_again,
};
use ir_text::names::{blocks, keys, operand_types, resolve, result_types, values};
use ir_text::place::line_and_column;
use ir_text::spelling::{spell, spell_to};
use ir_text::tokens::{next_token, tokens};
use ir_text::tree::parse;

/// The functions.
pub fn functions() {
    let _ = parse;
    let _ = spell;
    let _ = spell_to::<Vec<u8>>;
    let _ = resolve;
    let _ = blocks;
    let _ = values;
    let _ = keys;
    let _ = operand_types;
    let _ = result_types;
    let _ = tokens;
    let _ = next_token;
    let _ = ir_text::tokens::spell;
    let _ = line_and_column;
}

/// The laws.
pub fn laws() {
    tree_text_spells_again();
    parsed_is_tree();
    tree_is_parsed();
    one_tree_is_spelled();
    rows_go_forward();
    names_one_block();
    names_one_value();
    reading_covers();
    covering_is_read();
    covering_goes_forward();
    scanning_reads();
    read_has_spelling();
    spelling_is_read();
    spelling_is_kept();
}
