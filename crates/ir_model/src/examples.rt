//! What the definitions say of small forests: worked examples, each beside a neighbour that the definitions refuse.
//!
//! They show that the definitions mean what they are read as, apart from any code.

ghost use Rattle.ir_model.specs.WorkedRows.{RegionMoves, OwnResult, OutsideUseInDepth, InsertIntoItself, PredsTwice, SweptRows};
ghost use Rattle.ir_model.specs.NamedRows.{UniqueNames, LegaliseClashes};
ghost use Rattle.ir_model.specs.FaultRows.{EntryBlock, FaultsStand};

/// The worked examples hold.
///
/// Regions that a move leaves behind keep their order; an operation that uses its own result can be erased; one with a definition inside that is used outside cannot; no operation goes into a block inside it; a block that is named twice is listed twice. A sweep takes out what only itself and what goes with it use. Names, faults, and identifiers that clash come out as written.
pub fn worked_rows()
    ensures region_moves { RegionMoves }
    ensures own_result { OwnResult }
    ensures outside_use_in_depth { OutsideUseInDepth }
    ensures insert_into_itself { InsertIntoItself }
    ensures preds_twice { PredsTwice }
    ensures sweeps { SweptRows }
    ensures unique_names { UniqueNames }
    ensures entry_block { EntryBlock }
    ensures legalise_clashes { LegaliseClashes }
    ensures faults_stand { FaultsStand }
{}
