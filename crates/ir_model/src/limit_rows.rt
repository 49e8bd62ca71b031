//! What the definitions say of limits: worked examples, each beside a neighbour that the definitions refuse.

ghost use Rattle.ir_model.specs.LimitRows.{NewIds, SlotsAreSpent, NumbersAreSpent};

/// The worked examples of limits hold.
///
/// Versions start at 1 and rise by two, only in a slot whose last id is dead; a slot is spent while its id is live, and for good once its next version would pass the last; a number is handed out once.
pub fn limits_tell()
    ensures ids { NewIds }
    ensures slots { SlotsAreSpent }
    ensures numbers { NumbersAreSpent }
{}
