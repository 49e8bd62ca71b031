//! A module around what stands outside all regions.
ghost use Rattle.std.specs.Prelude.{◌≡◌, ◌↔◌, ◌∷◌, [], IfOk, IfSome, IsSome, IsTrue, OnOk, Some, codes, map};
ghost use Rattle.generic_dialect.specs.Kinds.{kind_of, listed_name};
ghost use Rattle.ir_model.specs.declared.ids.ArenaIndex.{ArenaIndex};
ghost use Rattle.ir_model.specs.Forest.{a_block, an_op};
ghost use Rattle.ir_model.specs.Nesting.{IsLive, ops_of};
ghost use Rattle.ir_core_queries.specs.State.{forest_of};
ghost use Rattle.generic_text.specs.Enclosing.{Encloses, IsModule, IsNewModule, StandsAround};
ghost use Rattle.generic_text.specs.GenericWords.{generic_words};
ghost use Rattle.generic_text.specs.Left.{GenericForest, IsNew, LeavesAll, StandsApart, StandsApartBut, StaysApart, StaysApartBut};

use crate::build_error::BuildError;
use crate::made::{Block, Op};
use crate::taking_back::erase;
use generic_dialect::{Generic, kind_name, table_kind};
use ir_checked_core::{basic_block, operation};
use ir_core_queries::{BlockPlace, BlockPtr, Context, OperationPtr};

// The name of modules.
const MODULE: &[u8] = b"builtin.module";

// Whether operations of a kind are modules.
fn is_module_kind(kind: u32) -> bool
    ensures { IsTrue result ↔ (listed_name (kind_of kind) ≡ Some (codes "builtin.module")) }
{
    kind_name(kind) == Some(MODULE)
}

// The kind of modules, which the table has.
fn module_kind() -> Result<u32, BuildError>
    ensures { IfOk result (λ kind. listed_name (kind_of kind) ≡ Some (codes "builtin.module")) }
{
    match table_kind(MODULE) {
        Some(kind) if is_module_kind(kind) => Ok(kind),
        _ => Err(BuildError::NoTree),
    }
}

// Whether an operation is live and a module.
fn is_module(ctx: &Context<Generic>, op: Op) -> bool
    ensures live { IsTrue result → IsLive (forest_of ctx.now) (an_op op.index) }
    ensures kind { IsTrue result ↔ IsModule (forest_of ctx.now) op.index }
{
    op.is_live(ctx) && is_module_kind(op.deref(ctx).kind())
}

/// The only one of these operations, if it is live and a module. Then nothing has to be put around it.
pub fn only_module(ctx: &Context<Generic>, tops: &[Op]) -> Option<Op>
    ensures only { IfSome result (λ root. map (λ p. p.index) tops.now ≡ root.index ∷ []) }
    ensures live { IfSome result (λ root. IsLive (forest_of ctx.now) (an_op root.index)) }
    ensures kind { IfSome result (λ root. IsModule (forest_of ctx.now) root.index) }
    ensures some { (only : ArenaIndex) → map (λ p. p.index) tops.now ≡ only ∷ [] → IsModule (forest_of ctx.now) only → IsSome result }
{
    match tops {
        [only] if is_module(ctx, *only) => Some(*only),
        _ => None,
    }
}

// Makes the block of a new module.
fn new_block(ctx: &mut Context<Generic>, root: Op) -> Result<Block, BuildError>
    requires { IsNewModule (forest_of ctx.old) root.index }
    ensures around { IfOk result (λ block. StandsAround (forest_of ctx.new) root.index block.index []) }
    ensures live { IfOk result (λ block. IsLive (forest_of ctx.new) (a_block block.index)) }
    ensures apart { StaysApart (an_op root.index) (forest_of ctx.old) (forest_of ctx.new) }
    ensures new { IfOk result (λ block. IsNew (forest_of ctx.old) (a_block block.index)) }
{
    ctx.recall_live_was_made();
    let block = basic_block::new(ctx, None, &[])?;
    let region = operation::get_region(root, ctx, 0)?;
    ctx.recall_well_formed();
    basic_block::insert_at_back(block, region, ctx)?;
    Ok(block)
}

// Puts the operations into a block that has none.
fn fill(ctx: &mut Context<Generic>, block: Block, tops: &[Op]) -> Result<(), BuildError>
    requires { IsLive (forest_of ctx.old) (a_block block.index) }
    ensures around { OnOk result ((root : ArenaIndex) → StandsAround (forest_of ctx.old) root block.index [] → StandsAround (forest_of ctx.new) root block.index (map (λ p. p.index) tops.now)) }
    ensures apart { StaysApartBut block.index (forest_of ctx.old) (forest_of ctx.new) }
{
    for op in tops {
        operation::insert_at_back(*op, block, ctx)?;
    }
    Ok(())
}

// Takes the first operation of a block out of it.
fn take_first_out(ctx: &mut Context<Generic>, block: Block)
    ensures { StaysApartBut block.index (forest_of ctx.old) (forest_of ctx.new) }
{
    if !block.is_live(ctx) {
        return;
    }
    if let Some(op) = block.get_head(ctx) {
        ctx.recall_well_formed();
        let _ = operation::unlink(op, ctx);
    }
}

// Whether a block is live and has no operation.
fn is_bare(ctx: &Context<Generic>, block: Block) -> bool
    ensures { IsTrue result → ops_of (forest_of ctx.now) block.index ≡ [] }
{
    if !block.is_live(ctx) {
        return false;
    }
    match block.get_head(ctx) {
        Some(_) => false,
        None => true,
    }
}

// Takes the operations out of the block again, and erases the module.
fn give_up(ctx: &mut Context<Generic>, root: Op, block: Block, tops: &[Op])
    ensures { (first : GenericForest) → StandsApartBut block.index first (forest_of ctx.old) → IsNew first (a_block block.index) → IsNew first (an_op root.index) → LeavesAll first (forest_of ctx.new) }
{
    'out: for _ in tops {
        take_first_out(ctx, block);
    }
    if is_bare(ctx, block) {
        erase(ctx, root);
    }
}

// Puts the operations into a new block of a new module, or erases the module.
fn put_in(ctx: &mut Context<Generic>, root: Op, tops: &[Op]) -> Result<(), BuildError>
    requires { IsNewModule (forest_of ctx.old) root.index }
    ensures around { OnOk result ((block : ArenaIndex) × StandsAround (forest_of ctx.new) root.index block (map (λ p. p.index) tops.now)) }
    ensures left { (first : GenericForest) → StandsApart first (forest_of ctx.old) → IsNew first (an_op root.index) → LeavesAll first (forest_of ctx.new) }
{
    match new_block(ctx, root) {
        Err(error) => {
            erase(ctx, root);
            Err(error)
        }
        Ok(block) => match fill(ctx, block, tops) {
            Ok(()) => Ok(()),
            Err(error) => {
                give_up(ctx, root, block, tops);
                Err(error)
            }
        },
    }
}

// Makes a module.
fn new_module(ctx: &mut Context<Generic>, kind: u32) -> Result<Op, BuildError>
    requires { listed_name (kind_of kind) ≡ Some (codes "builtin.module") }
    ensures made { IfOk result (λ root. IsNewModule (forest_of ctx.new) root.index) }
    ensures apart { (first : GenericForest) → StandsApart first (forest_of ctx.old) → StandsApart first (forest_of ctx.new) }
    ensures new { IfOk result (λ root. IsNew (forest_of ctx.old) (an_op root.index)) }
{
    ctx.recall_live_was_made();
    Ok(operation::new(ctx, kind, &[], &[], &[], 1)?)
}

/// Puts a new module around these operations, with all of them in the only block of its region, as `mlir-opt` does it with a text that isn't a module.
///
/// # Errors
/// `Core` for memory, numbers and slots, and `NoTree` where one of them isn't live, stands in a block or is named twice. Then the module is erased, and each operation stands where it stood.
pub fn enclose(ctx: &mut Context<Generic>, tops: &[Op]) -> Result<Op, BuildError>
    ensures encloses { IfOk result (λ root. Encloses (forest_of ctx.new) (generic_words ctx.new) root.index (map (λ p. p.index) tops.now)) }
    ensures live { IfOk result (λ root. IsLive (forest_of ctx.new) (an_op root.index)) }
    // All operations, blocks and regions that were there are as they were, under an error too.
    ensures left { LeavesAll (forest_of ctx.old) (forest_of ctx.new) }
{
    let kind = module_kind()?;
    ctx.recall_well_formed();
    let root = new_module(ctx, kind)?;
    put_in(ctx, root, tops)?;
    Ok(root)
}
