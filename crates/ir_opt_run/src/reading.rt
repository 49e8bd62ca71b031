//! A text read into a context, with the places of its operations.
ghost use Rattle.std.specs.Prelude.{IfOk, IsTrue, List, OnErr, OnOk, map, true};
ghost use Rattle.generic_text.specs.Enclosing.{Encloses};
ghost use Rattle.generic_text.specs.GenericWords.{block_named, generic_words, named_tree, value_named};
ghost use Rattle.generic_text.specs.Left.{LeavesAll};
ghost use Rattle.ir_model.specs.declared.ids.ArenaIndex.{ArenaIndex};
ghost use Rattle.ir_model.specs.Forest.{an_op};
ghost use Rattle.ir_model.specs.Nesting.{IsClosed, IsLive};
ghost use Rattle.ir_core_context.specs.Calls.{NoEntity};
ghost use Rattle.ir_core_queries.specs.State.{forest_of};
ghost use Rattle.ir_text_described.specs.Described.{IsDescribedBy};
ghost use Rattle.ir_opt_run.specs.Modules.{HasOnly, IsReadAs, Says};

use crate::fault::Fault;
use crate::saying::check_said;
use crate::trees::{NamedTree, read_tree};
use generic_dialect::Generic;
use generic_text::{Built, build, enclose, only_module};
use ir_base_dialects::Ptr;
use ir_core_queries::{BasicBlock, Context, Entity, Operation, OperationPtr, can_erase};
use ir_text_reader::Row;
use ir_view::walk::all_inside;
use std::alloc::{AllocError, Global};

/// An operation of the dialect.
pub type Op = Ptr<Operation<Generic>>;

/// A block of the dialect.
pub type Block = Ptr<BasicBlock<Generic>>;

/// What was read of a text.
#[derive(Drop)]
pub struct Module {
    /// The operation around all of it: the only one that the text has outside all regions, or a module that was made around these.
    pub root: Op,
    /// All operations of the text, each with the index of the first byte of its name.
    pub places: Vec<(Op, u32)>,
    /// All blocks of the text.
    pub blocks: Vec<Block>,
}

// The index of the first byte of a row.
fn start_of(rows: &[Row], at: usize) -> u32 {
    match rows.get(at) {
        Some(row) => row.span.start,
        None => 0,
    }
}

// The operations with the indices of their names in the text, for those with the rows of their names.
fn places(alloc: Global, rows: &[Row], ops: &[(Op, u32)]) -> Result<Vec<(Op, u32)>, AllocError> {
    let mut places = Vec::with_capacity(alloc, ops.len())?;
    for (op, at) in ops {
        places.push((*op, start_of(rows, *at as usize)))?;
    }
    Ok(places)
}

// Builds a tree.
fn build_tree(ctx: &mut Context<Generic>, text: &[u8], tree: &NamedTree) -> Result<Built, Fault>
    ensures described { IfOk result (λ b. IsDescribedBy (forest_of ctx.new) (generic_words ctx.new) true (named_tree text.now tree.now.rows.items tree.now.names) (map (λ p. p.index) b.tops.items)) }
    ensures left { LeavesAll (forest_of ctx.old) (forest_of ctx.new) }
{
    Ok(build(ctx, text, tree.rows.as_slice(), &tree.names)?)
}

// The operation around all that was built: the only one outside all regions, if it is a module, or else a module that is made around these. What stands in this is compared with the text once more.
fn root_of(
    ctx: &mut Context<Generic>,
    text: &[u8],
    tree: &NamedTree,
    tops: &[Op],
) -> Result<Op, Fault>
    requires read { IsReadAs text.now tree.now.rows.items (block_named tree.now.names) (value_named tree.now.names) }
    requires described { IsDescribedBy (forest_of ctx.old) (generic_words ctx.old) true (named_tree text.now tree.now.rows.items tree.now.names) (map (λ p. p.index) tops.now) }
    ensures live { IfOk result (λ root. IsLive (forest_of ctx.new) (an_op root.index)) }
    ensures said { IfOk result (λ root. Says (forest_of ctx.new) (generic_words ctx.new) true text.now (map (λ p. p.index) tops.now)) }
    ensures encloses { IfOk result (λ root. Encloses (forest_of ctx.new) (generic_words ctx.new) root.index (map (λ p. p.index) tops.now)) }
    ensures left { LeavesAll (forest_of ctx.old) (forest_of ctx.new) }
{
    if let Some(root) = only_module(ctx, tops) {
        return Ok(root);
    }
    let root = enclose(ctx, tops)?;
    check_said(ctx, tops, text, tree, true)?;
    Ok(root)
}

// Sees to it that all that is live in the context stands inside an operation. Then nothing outside names what is inside.
fn check_only(ctx: &Context<Generic>, root: Op) -> Result<(), Fault>
    requires { IsLive (forest_of ctx.now) (an_op root.index) }
    ensures only { OnOk result (HasOnly (forest_of ctx.now) (an_op root.index)) }
    ensures closed { OnOk result (IsClosed (forest_of ctx.now) (an_op root.index)) }
{
    let count = all_inside(ctx, Entity::Op(root))?.len();
    let records = ctx.records();
    let ops = records.ops.len();
    let blocks = records.blocks.len();
    let regions = records.regions.len();
    if ops <= count && blocks <= count - ops && regions <= count - ops - blocks {
        return Ok(());
    }
    Err(Fault::Different)
}

// Sees to it that nothing outside an operation names what is inside it; in a context that was empty before, that nothing is outside.
fn check_closed(ctx: &Context<Generic>, root: Op, was_empty: bool) -> Result<(), Fault>
    requires { IsLive (forest_of ctx.now) (an_op root.index) }
    ensures closed { OnOk result (IsClosed (forest_of ctx.now) (an_op root.index)) }
    ensures only { IsTrue was_empty → OnOk result (HasOnly (forest_of ctx.now) (an_op root.index)) }
{
    if was_empty {
        return check_only(ctx, root);
    }
    if can_erase(ctx, Entity::Op(root)) {
        Ok(())
    } else {
        Err(Fault::Different)
    }
}

// Reads a text into a context. What was built is compared with the text, and where the context was empty, also with all that is there.
fn read_into(ctx: &mut Context<Generic>, text: &[u8], was_empty: bool) -> Result<Module, Fault>
    ensures live { IfOk result (λ m. IsLive (forest_of ctx.new) (an_op m.root.index)) }
    ensures closed { IfOk result (λ m. IsClosed (forest_of ctx.new) (an_op m.root.index)) }
    ensures said { IfOk result (λ m. (operations : List ArenaIndex) × Says (forest_of ctx.new) (generic_words ctx.new) true text.now operations × Encloses (forest_of ctx.new) (generic_words ctx.new) m.root.index operations) }
    ensures only { IsTrue was_empty → IfOk result (λ m. HasOnly (forest_of ctx.new) (an_op m.root.index)) }
    ensures left { LeavesAll (forest_of ctx.old) (forest_of ctx.new) }
{
    let alloc = ctx.alloc();
    let tree = read_tree(alloc, text)?;
    let built = build_tree(ctx, text, &tree)?;
    let root = root_of(ctx, text, &tree, built.tops.as_slice())?;
    check_closed(ctx, root, was_empty)?;
    let places = places(alloc, tree.rows.as_slice(), built.ops.as_slice())?;
    Ok(Module {
        root,
        places,
        blocks: built.blocks,
    })
}

/// Reads a text into a context. What was built is compared with the text, and where the context was empty, also with all that is there.
///
/// # Errors
/// The first fault in the text; want of memory, numbers or slots; and `Different` where what was built isn't what the text says, which would be a fault of this program. Then a context that had no operation, block or region has none again; only types and saved texts are left. In any other context what was there stays as it was, and what was built may be left beside it.
pub fn read_module(ctx: &mut Context<Generic>, text: &[u8]) -> Result<Module, Fault>
    ensures live { IfOk result (λ m. IsLive (forest_of ctx.new) (an_op m.root.index)) }
    ensures closed { IfOk result (λ m. IsClosed (forest_of ctx.new) (an_op m.root.index)) }
    ensures said { IfOk result (λ m. (operations : List ArenaIndex) × Says (forest_of ctx.new) (generic_words ctx.new) true text.now operations × Encloses (forest_of ctx.new) (generic_words ctx.new) m.root.index operations) }
    ensures only { NoEntity (forest_of ctx.old) → IfOk result (λ m. HasOnly (forest_of ctx.new) (an_op m.root.index)) }
    // All operations, blocks and regions that were there are as they were, under an error too.
    ensures left { LeavesAll (forest_of ctx.old) (forest_of ctx.new) }
    ensures err { NoEntity (forest_of ctx.old) → OnErr result (NoEntity (forest_of ctx.new)) }
{
    let was_empty = ctx.is_ir_empty();
    match read_into(ctx, text, was_empty) {
        Ok(module) => Ok(module),
        Err(fault) => {
            if was_empty {
                ctx.clear();
                return Err(fault);
            }
            Err(fault)
        }
    }
}
