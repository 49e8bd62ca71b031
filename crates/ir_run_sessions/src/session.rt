//! Sessions: a context with tables of what was made in it, to which lists of edits are done.
//!
//! Whatever list of edits is run, and whichever of them memory, a counter or slots refuse, the context then means a plain forest to which the accepted edits lead.

ghost use Rattle.std.specs.Prelude.{◌≡◌, ◌<◌, ◌≤◌, length, map, IfOk, IfErr, OnErr, slice_get};
ghost use Rattle.std.specs.Option.{option_map};
ghost use Rattle.ir_model.specs.declared.ids.ArenaIndex.{ArenaIndex};
ghost use Rattle.ir_model.specs.Forest.{a_value, the_block};
ghost use Rattle.ir_model.specs.Nesting.{IsLiveNamed, WellFormed};
ghost use Rattle.ir_model.specs.Gone.{StaysGone};
ghost use Rattle.ir_model.specs.Sessions.{IsNewSession, Run, Step};
ghost use Rattle.ir_model.specs.Soundness.{Sound};
ghost use Rattle.ir_model.specs.Uses.{AreUses};
ghost use Rattle.ir_core_records.specs.declared.record.ValueIndex.{ValueIndex as PlainIndex};
ghost use Rattle.ir_core_records.specs.Meaning.{value_of};
ghost use Rattle.ir_core_queries.specs.Calls.{LiveWasMade, TypesAreExact, nothing_beside};
ghost use Rattle.ir_core_queries.specs.State.{bare, block_uses_of, uses_of};
ghost use Rattle.ir_run_sessions.specs.SessionEdits.{edit_of};
ghost use Rattle.ir_run_sessions.specs.Headline.{GoneAtCuts, KeepsKeys};
ghost use Rattle.ir_run_sessions.specs.SessionState.{plain};
ghost use Rattle.ir_core_records.specs.DialectAnswers.{behaviour_of};

use crate::session_tables::Tables;
use crate::stepping::step;
use ir_base_dialects::{Answer, CoreError, Dialects, Limits, Ptr, TypeHandle};
use ir_core_queries::{BasicBlock, Context, Operation, Region, Value};
use ir_run_edits::Edit;
use std::alloc::Global;
use std::marker::Model;

/// A context, and the types, operations, blocks, regions and values that edits made in it, in order. Nothing is ever taken out of these tables.
#[derive(Drop)]
pub struct Session<D: Dialects> {
    ctx: Context<D>,
    tables: Tables<D>,
}

impl<D: Dialects> Model for Session<D> {
    ghost use Rattle.ir_model.specs.Soundness.{Sound};
    ghost use Rattle.ir_run_sessions.specs.SessionState.{plain, SessionState};
    ghost use Rattle.ir_run_sessions.specs.SessionTables.{entries_of};

    ghost Value = { SessionState D D.Attr D.TypeKey D.TypeBody D.Saved D.Aux D.Loc };

    ghost view = { λ s. record { ctx = s.ctx; tables = entries_of s.tables } };

    ghost invariant = { λ s. Sound (plain (record { ctx = s.ctx; tables = entries_of s.tables })) };
}

impl<D: Dialects> Session<D> {
    /// A session in which nothing was made yet, with these limits, none of which passes its default. It allocates nothing.
    pub fn new(alloc: Global, limits: Limits) -> Self
        requires slots { limits.slots < 4294967295 }
        requires versions { 1 ≤ limits.last_version }
        ensures new { IsNewSession (plain result) }
        ensures beside { (plain result).beside ≡ nothing_beside }
        ensures limits { (plain result).limits ≡ limits }
    {
        Session {
            ctx: Context::with_limits(alloc, limits),
            tables: Tables::new(alloc),
        }
    }

    /// The context.
    pub fn ctx(&self) -> &Context<D>
        ensures { result.now ≡ self.now.ctx }
    {
        &self.ctx
    }

    /// Lets go of the session, and gives back how what was done with it ended. That all in a session is let go of is proved here, once and for any dialect: a function that makes a session and ends so need not prove it again, which takes long.
    pub fn end<O>(self, outcome: O) -> O
        ensures { result ≡ outcome }
    {
        outcome
    }

    /// The type with this number; none where no type has it.
    pub fn ty(&self, number: usize) -> Option<TypeHandle>
        ensures { option_map (λ t. t.place) result ≡ slice_get (plain self.now).state.tables.types number }
    {
        self.tables.types.get(number).copied()
    }

    /// The operation with this number, live or not; none where no operation has it.
    pub fn op(&self, number: usize) -> Option<Ptr<Operation<D>>>
        ensures { option_map (λ p. p.index) result ≡ slice_get (plain self.now).state.tables.ops number }
    {
        self.tables.ops.get(number).copied()
    }

    /// The block with this number, live or not; none where no block has it.
    pub fn block(&self, number: usize) -> Option<Ptr<BasicBlock<D>>>
        ensures { option_map (λ p. p.index) result ≡ slice_get (plain self.now).state.tables.blocks number }
    {
        self.tables.blocks.get(number).copied()
    }

    /// The region with this number, live or not; none where no region has it.
    pub fn region(&self, number: usize) -> Option<Ptr<Region>>
        ensures { option_map (λ p. p.index) result ≡ slice_get (plain self.now).state.tables.regions number }
    {
        self.tables.regions.get(number).copied()
    }

    /// The value with this number, live or not; none where no value has it.
    pub fn value(&self, number: usize) -> Option<Value<D>>
        ensures { option_map (λ v. value_of v.index) result ≡ slice_get (plain self.now).state.tables.values number }
    {
        self.tables.values.get(number).copied()
    }

    /// Carries the edits out in order, and answers each.
    ///
    /// Whatever the edits are, the session before, the edits, the answers and the session after stand in `Run`; the forest is well formed; the kept uses of each live value and of each live block are exactly the places that name it; what is gone stays gone, also in between; and types are equal exactly where their keys are.
    ///
    /// # Errors
    /// `OutOfMemory`, where there was no room for the answers. Then nothing was done.
    pub fn run(&mut self, edits: Vec<Edit<D>>) -> Result<Vec<Answer>, CoreError>
        ensures headline { IfOk result (λ answers. Run (behaviour_of D.Dialects D.TypeKey.eq) (plain self.old) (map edit_of edits.items) answers.items (plain self.new)) }
        ensures well_formed { WellFormed (plain self.new).state.forest (length (plain self.new).state.store) }
        ensures uses_exact { (v : PlainIndex) → IsLiveNamed (plain self.new).state.forest (a_value (value_of v)) → AreUses (plain self.new).state.forest (a_value (value_of v)) (uses_of self.new.ctx v) }
        ensures block_uses_exact { (b : ArenaIndex) → IsLiveNamed (plain self.new).state.forest (the_block b) → AreUses (plain self.new).state.forest (the_block b) (block_uses_of self.new.ctx b) }
        ensures stays_gone { StaysGone (plain self.old) (plain self.new) }
        ensures gone_at_cuts { IfOk result (λ answers. GoneAtCuts (behaviour_of D.Dialects D.TypeKey.eq) (plain self.old) (map edit_of edits.items) answers.items (plain self.new)) }
        ensures live_was_made { LiveWasMade (bare self.new.ctx) }
        ensures types_exact { TypesAreExact (behaviour_of D.Dialects D.TypeKey.eq) (plain self.new).state.store }
        ensures keys_stay { KeepsKeys (plain self.old) (plain self.new) }
        ensures memory { IfErr result (λ e. e ≡ CoreError.OutOfMemory) }
        ensures err { OnErr result (self.new ≡ self.old) }
    {
        let result = self.carry_out(edits);
        self.ctx.recall_uses_exact();
        self.ctx.recall_types_exact();
        self.ctx.recall_live_was_made();
        result
    }

    // Carries the edits out in order, and answers each.
    fn carry_out(&mut self, edits: Vec<Edit<D>>) -> Result<Vec<Answer>, CoreError>
        ensures headline { IfOk result (λ answers. Run (behaviour_of D.Dialects D.TypeKey.eq) (plain self.old) (map edit_of edits.items) answers.items (plain self.new)) }
        ensures stays_gone { StaysGone (plain self.old) (plain self.new) }
        ensures was_sound { IfOk result (λ _. Sound (plain self.old)) }
        ensures keys_stay { KeepsKeys (plain self.old) (plain self.new) }
        ensures memory { IfErr result (λ e. e ≡ CoreError.OutOfMemory) }
        ensures err { OnErr result (self.new ≡ self.old) }
    {
        let mut answers = Vec::with_capacity(self.ctx.alloc(), edits.len())?;
        for edit in edits {
            let answer = self.step(edit);
            answers.push_reserved(answer);
        }
        Ok(answers)
    }

    // Carries one edit out.
    fn step(&mut self, edit: Edit<D>) -> Answer
        ensures { Step (behaviour_of D.Dialects D.TypeKey.eq) (plain self.old) (edit_of edit) result (plain self.new) }
    {
        step(&mut self.ctx, &mut self.tables, edit)
    }
}
