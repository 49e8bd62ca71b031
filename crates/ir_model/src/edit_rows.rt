//! What each edit leads to from one state, in which things are linked, used and nested, beside a neighbour to which it does not lead.
//!
//! Each state is written out: its records, its types and its tables. They show that the change of an edit means what it is read as, apart from any code.

ghost use Rattle.ir_model.specs.OperandRows.{OperandRows, SuccessorRows, ReplaceAllRows};
ghost use Rattle.ir_model.specs.DefinitionRows.{ResultRows, ArgumentRows};
ghost use Rattle.ir_model.specs.NewRows.{TypeRows, NewOpRows, NewBlockRows};
ghost use Rattle.ir_model.specs.ListRows.{OpRows, BlockRows, RegionRows};
ghost use Rattle.ir_model.specs.RemovalRows.{DropRows, EraseRows};
ghost use Rattle.ir_model.specs.MemoryRows.{MemoryRows};
ghost use Rattle.ir_model.specs.ConditionRows.{MayMake, MayDefine, MayUse, MayList, MayJoinLists, MayRemove};

/// What edits that make types, operations, blocks and regions lead to.
pub fn new_entity_rows()
    ensures types { TypeRows }
    ensures operations { NewOpRows }
    ensures blocks { NewBlockRows }
{}

/// What edits of results and arguments lead to.
pub fn definition_rows()
    ensures results { ResultRows }
    ensures arguments { ArgumentRows }
{}

/// What edits of operands and successors lead to.
pub fn operand_rows()
    ensures operands { OperandRows }
    ensures successors { SuccessorRows }
    ensures all_uses { ReplaceAllRows }
{}

/// What edits of the lists of operations, blocks and regions lead to.
pub fn list_rows()
    ensures ops { OpRows }
    ensures blocks { BlockRows }
    ensures regions { RegionRows }
{}

/// What dropping uses and erasing lead to.
pub fn removal_rows()
    ensures dropped { DropRows }
    ensures erased { EraseRows }
{}

/// Which edits may be made in that state, each beside a neighbour that may not.
pub fn condition_rows()
    ensures made { MayMake }
    ensures definitions { MayDefine }
    ensures uses { MayUse }
    ensures lists { MayList }
    ensures joins { MayJoinLists }
    ensures removals { MayRemove }
{}

/// Which edits may run out of memory in that state, and which never do.
pub fn memory_rows()
    ensures memory { MemoryRows }
{}
