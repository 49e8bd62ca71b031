//! What the definitions say of an operation that is erased: a worked example, beside neighbours that the definitions refuse.

ghost use Rattle.ir_model.specs.EraseRows.{ErasedInDepth};

/// The worked example of erasing holds.
///
/// While a result deep inside is used outside, the operation cannot be erased. After the operand was replaced it can, and the four entities go and nothing else.
pub fn erase_rows()
    ensures { ErasedInDepth }
{}
