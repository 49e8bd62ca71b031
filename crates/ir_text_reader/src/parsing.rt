//! From a text to its tree, by one loop.
ghost use Rattle.std.specs.Prelude.{◌≡◌, ◌≢◌, ◌↔◌, ◌<◌, ◌≤◌, length, Ok, Err, IfOk, IfErr};
ghost use Rattle.ir_text_tree.specs.Rows.{GoForward, row_spans};
ghost use Rattle.ir_text_tree.specs.Trees.{Body, IsWholeText, tree_rows};
ghost use Rattle.ir_text_reader.specs.declared.fault.Fault.TheVariants.{TooLong};
ghost use Rattle.ir_text_reader.specs.Faults.{StopsWithin};
ghost use Rattle.ir_text_reader.specs.Texts.{IsTree, SpellsTree, text_read};

use crate::fault::Fault;
use crate::piece::piece_of;
use ir_text_tokens::laws::{
    covering_goes_forward, covering_is_read, reading_covers, scanning_reads,
};
use ir_text_tokens::next_token;
use ir_text_tree::laws::{parsed_is_tree, rows_go_forward, tree_is_parsed};
use ir_text_tree::{Row, finish, read_piece, start};
use std::alloc::Global;

// Spans are numbers of 32 bits.
const LONGEST: usize = 4294967295;

/// The flat tree of a text: a row for each part, in the order of the text.
#[derive(Debug, Drop)]
pub struct Tree {
    /// The rows, whose spans are pieces of the text.
    pub rows: Vec<Row>,
}

// Reads all of the text.
fn read_all(alloc: Global, text: &[u8]) -> Result<Tree, Fault>
    requires { length text.now ≤ 4294967295 }
    ensures reads { IsTree (λ t. t.rows.items) result (text_read text.now) }
    ensures placed { IfErr result (StopsWithin text.now) }
    ensures short { IfErr result (λ e. e ≢ TooLong) }
{
    let mut rows = Vec::new(alloc);
    let mut groups = Vec::new(alloc);
    let mut brackets = Vec::new(alloc);
    let mut state = start();
    let mut at = 0;
    let mut behind = false;
    while let Some(token) = next_token(text, at, behind, &mut groups)? {
        let piece = piece_of(text, token);
        state = read_piece(&mut rows, &mut brackets, state, piece)?;
        at = token.end;
        behind = true;
    }
    finish(&mut rows, state, text.len() as u32)?;
    Ok(Tree { rows })
}

/// The tree of a text of at most 4,294,967,295 bytes.
///
/// # Errors
/// `TooLong` for a longer text, `OutOfMemory`, and else the first fault in the text.
pub fn parse(alloc: Global, text: &[u8]) -> Result<Tree, Fault>
    // What is read is a tree that the text spells, and these are its rows.
    ensures found { IfOk result (λ t. (b : Body) × IsWholeText b × SpellsTree text.now b × (t.rows.items ≡ tree_rows b)) }
    // A text that spells a tree is read as its rows, unless memory runs out.
    ensures only { (b : Body) → length text.now ≤ 4294967295 → IsWholeText b → SpellsTree text.now b → IsTree (λ t. t.rows.items) result (Ok (tree_rows b)) }
    // The spans of the rows go forward in the text.
    ensures in_order { IfOk result (λ t. GoForward (length text.now) 0 (row_spans t.rows.items)) }
    ensures too_long { (result ≡ Err TooLong) ↔ (4294967295 < length text.now) }
    // The place of a fault is in the text, or its end.
    ensures placed { IfErr result (StopsWithin text.now) }
    // Which fault it is, and where.
    ensures exact { length text.now ≤ 4294967295 → IsTree (λ t. t.rows.items) result (text_read text.now) }
{
    scanning_reads();
    reading_covers();
    covering_is_read();
    covering_goes_forward();
    parsed_is_tree();
    tree_is_parsed();
    rows_go_forward();
    if text.len() > LONGEST {
        return Err(Fault::TooLong);
    }
    read_all(alloc, text)
}
