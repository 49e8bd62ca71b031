//! What stands between two parts of a tree.
ghost use Rattle.std.specs.Prelude.{◌≡◌, ◌+◌, ◌<◌, ◌^◌};
ghost use Rattle.ir_text_spelling.specs.Marks.{is_result, is_successor, is_close, is_entry, is_operand_type, is_result_type, is_joined, to_operand, to_argument, joint, closing, to_results, to_only_result, to_location, to_line_end, opening, depth_behind, levels};

use ir_text_tree::Part;

// Whether a part is a result, or a number of results under its name.
fn is_result(part: Part) -> bool
    ensures { result ≡ is_result part }
{
    match part {
        Part::Result | Part::Count => true,
        _ => false,
    }
}

// Whether a part is a successor.
fn is_successor(part: Part) -> bool
    ensures { result ≡ is_successor part }
{
    match part {
        Part::Successor => true,
        _ => false,
    }
}

// Whether a part is the end of a region.
fn is_close(part: Part) -> bool
    ensures { result ≡ is_close part }
{
    match part {
        Part::Close => true,
        _ => false,
    }
}

// Whether a part is a key, or its value.
fn is_entry(part: Part) -> bool
    ensures { result ≡ is_entry part }
{
    match part {
        Part::Key | Part::Value => true,
        _ => false,
    }
}

// Whether a part is the type of an operand.
fn is_operand_type(part: Part) -> bool
    ensures { result ≡ is_operand_type part }
{
    match part {
        Part::OperandType => true,
        _ => false,
    }
}

// Whether a part is the type of a result, in parentheses.
fn is_result_type(part: Part) -> bool
    ensures { result ≡ is_result_type part }
{
    match part {
        Part::ResultType => true,
        _ => false,
    }
}

/// Whether a part goes on with the list of the part before it, or belongs to it.
pub(crate) fn is_joined(last: Part, next: Part) -> bool
    ensures { result ≡ is_joined last next }
{
    match next {
        Part::Result | Part::Name => is_result(last),
        Part::Successor => is_successor(last),
        Part::Open => is_close(last),
        Part::Key => is_entry(last),
        Part::OperandType => is_operand_type(last),
        Part::ResultType => is_result_type(last),
        Part::Properties | Part::Close | Part::OnlyResultType => false,
        Part::Location | Part::Label => false,
        _ => true,
    }
}

// What stands before an operand.
fn to_operand(last: Part) -> &'static str
    ensures { result.now ≡ to_operand last }
{
    match last {
        Part::Name => "(",
        _ => ", ",
    }
}

// What stands before an argument of a block.
fn to_argument(last: Part) -> &'static str
    ensures { result.now ≡ to_argument last }
{
    match last {
        Part::Label => "(",
        Part::ArgumentLocation => "), ",
        _ => ", ",
    }
}

/// What stands between a part and one that goes on with its list or belongs to it.
pub(crate) fn joint(last: Part, next: Part) -> &'static str
    ensures { result.now ≡ joint last next }
{
    match next {
        Part::Name | Part::Value => " = ",
        Part::Count => ":",
        Part::Index => "",
        Part::ArgumentType => ": ",
        Part::ArgumentLocation => " loc(",
        Part::Operand => to_operand(last),
        Part::Argument => to_argument(last),
        _ => ", ",
    }
}

/// What closes the list of which this part is the last.
pub(crate) fn closing(last: Part) -> &'static str
    ensures { result.now ≡ closing last }
{
    match last {
        Part::Name => "()",
        Part::Operand | Part::Index | Part::Close | Part::Location => ")",
        Part::OperandType | Part::ResultType | Part::ArgumentType => ")",
        Part::ArgumentLocation => "))",
        Part::Successor => "]",
        Part::Key | Part::Value => "}",
        _ => "",
    }
}

// What leads from there to the types of the results, in parentheses.
fn to_results(last: Part) -> &'static str
    ensures { result.now ≡ to_results last }
{
    match last {
        Part::OperandType => " -> (",
        _ => " : () -> (",
    }
}

// What leads from there to the type of the only result, in no parentheses.
fn to_only_result(last: Part) -> &'static str
    ensures { result.now ≡ to_only_result last }
{
    match last {
        Part::OperandType => " -> ",
        _ => " : () -> ",
    }
}

// What leads from there to the location.
fn to_location(last: Part) -> &'static str
    ensures { result.now ≡ to_location last }
{
    match last {
        Part::ResultType | Part::OnlyResultType => " loc(",
        Part::OperandType => " -> () loc(",
        _ => " : () -> () loc(",
    }
}

/// What leads from there to the end of the line.
pub(crate) fn to_line_end(last: Part) -> &'static str
    ensures { result.now ≡ to_line_end last }
{
    match last {
        Part::Open | Part::Location | Part::ResultType | Part::OnlyResultType => "\n",
        Part::Label | Part::ArgumentType | Part::ArgumentLocation => ":\n",
        Part::OperandType => " -> ()\n",
        _ => " : () -> ()\n",
    }
}

/// What leads from there to the first part of another list, or to the next line.
pub(crate) fn opening(last: Part, next: Part) -> &'static str
    ensures { result.now ≡ opening last next }
{
    match next {
        Part::Successor => "[",
        Part::Properties => " ",
        Part::Open => " (",
        Part::Key => " {",
        Part::OperandType => " : (",
        Part::ResultType => to_results(last),
        Part::OnlyResultType => to_only_result(last),
        Part::Location => to_location(last),
        _ => to_line_end(last),
    }
}

/// How many regions are open behind a part.
pub(crate) fn depth_behind(part: Part, depth: usize) -> usize
    requires { depth + 1 < 2 ^ 64 }
    ensures { result ≡ depth_behind part depth }
{
    match part {
        Part::Open => depth + 1,
        Part::Close => depth.saturating_sub(1),
        _ => depth,
    }
}

/// By how many levels a part is indented that begins a line, in so many open regions; none for the others.
pub(crate) fn levels(depth: usize, part: Part) -> usize
    ensures { result ≡ levels depth part }
{
    match part {
        Part::Result | Part::Name => depth,
        Part::Label | Part::Close => depth.saturating_sub(1),
        _ => 0,
    }
}
