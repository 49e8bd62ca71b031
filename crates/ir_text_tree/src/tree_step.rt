//! What a token does to the reader: the table of the tree.
ghost use Rattle.std.specs.Prelude.{◌≡◌};
ghost use Rattle.ir_text_tree.specs.TreeSteps.{skip, put, results_step, operands_step, parts_step, entries_step, label_step, begin_text, types_step, stops_outside, stops, text_end, text_step, body_step, after_step, behind_type, bare_step, tree_step, is_whole, wanted_in_body, wanted_in_results, wanted_in_operands, wanted_in_parts, wanted_in_entries, wanted_in_types, wanted_in_label, wanted_first, wanted_in_text, wanted};

use crate::fault::Wanted;
use crate::row::Part;
use crate::sort::Sort;
use crate::text_step::{Bracket, Nesting, TextKind, part_of_text, takes};

/// Where the reader is, in the results of an operation.
#[derive(Clone, Copy)]
pub enum ResultsMode {
    /// Behind a name.
    Behind,
    /// Before the number of results under that name.
    Count,
    /// Behind that number.
    Counted,
    /// Before a further name.
    Next,
    /// Before the operation's name.
    Name,
}

/// Where the reader is, in the operands of an operation.
#[derive(Clone, Copy)]
pub enum OperandsMode {
    /// Before the parenthesis.
    Open,
    /// Behind it.
    First,
    /// Behind a name.
    Behind,
    /// Behind the number of a result.
    Indexed,
    /// Before a further name.
    Next,
}

/// Where the reader is, between the operands of an operation and its attributes.
#[derive(Clone, Copy)]
pub enum PartsMode {
    /// Behind the operands.
    Operands,
    /// Before a successor.
    NextSuccessor,
    /// Behind a successor.
    Successor,
    /// Behind all successors.
    Successors,
    /// Behind the properties.
    Properties,
    /// Before a region.
    NextRegion,
    /// Behind a region.
    Region,
    /// Behind all regions.
    Regions,
}

/// Where the reader is, in the attributes of an operation.
#[derive(Clone, Copy)]
pub enum EntriesMode {
    /// Before the first key.
    First,
    /// Before a further key.
    Next,
    /// Behind a key.
    Key,
    /// Behind all attributes.
    Colon,
}

/// Where the reader is, in the types of an operation.
#[derive(Clone, Copy)]
pub enum TypesMode {
    /// Before the parenthesis.
    Open,
    /// Before the first operand's type.
    FirstOperand,
    /// Before the arrow.
    Arrow,
    /// Behind it.
    Results,
    /// Before the first result's type, in parentheses.
    FirstResult,
    /// Before the parenthesis of the location.
    Location,
}

/// Where the reader is, in the head of a block.
#[derive(Clone, Copy)]
pub enum LabelMode {
    /// Behind the block's name.
    Behind,
    /// Before the first argument.
    First,
    /// Before a further argument.
    Next,
    /// Behind an argument's name.
    Argument,
    /// Before the parenthesis of its location.
    Location,
    /// Behind its location.
    Located,
    /// Behind all arguments.
    End,
}

/// Where the reader is.
#[derive(Clone, Copy)]
pub enum Mode {
    /// Before the first operation of the text.
    Start,
    /// Where operations, and in a region blocks, begin.
    Body,
    /// Behind an operation, whose location may follow.
    After,
    /// Behind the type of its only result, which stands in no parentheses and may go on.
    Bare,
    /// In the results of an operation.
    Results(ResultsMode),
    /// In its operands.
    Operands(OperandsMode),
    /// Between its operands and its attributes.
    Parts(PartsMode),
    /// In its attributes.
    Entries(EntriesMode),
    /// In its types.
    Types(TypesMode),
    /// In the head of a block.
    Label(LabelMode),
    /// Before a text.
    Next(TextKind),
    /// In a text.
    Text(TextKind),
}

/// What becomes of a token.
#[derive(Clone, Copy)]
pub enum Action {
    /// Nothing: it separates.
    Skip,
    /// It is this part.
    Put(Part),
    /// It is the first of a text, with these brackets.
    Start(Nesting),
    /// The text goes on with it.
    Extend(Nesting),
    /// It is the last of the text, which is this part.
    Join(Part),
    /// It begins a region.
    Open,
    /// It ends a region.
    Close,
}

/// What a token does.
#[derive(Clone, Copy)]
pub enum Step {
    /// The text before it, if there is one, is that part; then the reader goes on there.
    Go {
        /// What the text is that ends before the token.
        ended: Option<Part>,
        /// What becomes of the token.
        action: Action,
        /// Where the reader goes on.
        to: Mode,
    },
    /// It can't stand here.
    Bad,
}

// The token separates.
fn skip(to: Mode) -> Step
    ensures { result ≡ skip to }
{
    Step::Go {
        ended: None,
        action: Action::Skip,
        to,
    }
}

// The token is a part.
fn put(part: Part, to: Mode) -> Step
    ensures { result ≡ put part to }
{
    Step::Go {
        ended: None,
        action: Action::Put(part),
        to,
    }
}

// What a token does in the results of an operation.
fn results_step(mode: ResultsMode, sort: Sort) -> Step
    ensures { result ≡ results_step mode sort }
{
    match mode {
        ResultsMode::Behind => match sort {
            Sort::Colon => skip(Mode::Results(ResultsMode::Count)),
            Sort::Comma => skip(Mode::Results(ResultsMode::Next)),
            Sort::Equals => skip(Mode::Results(ResultsMode::Name)),
            _ => Step::Bad,
        },
        ResultsMode::Count => match sort {
            Sort::Word => put(Part::Count, Mode::Results(ResultsMode::Counted)),
            _ => Step::Bad,
        },
        ResultsMode::Counted => match sort {
            Sort::Comma => skip(Mode::Results(ResultsMode::Next)),
            Sort::Equals => skip(Mode::Results(ResultsMode::Name)),
            _ => Step::Bad,
        },
        ResultsMode::Next => match sort {
            Sort::Value => put(Part::Result, Mode::Results(ResultsMode::Behind)),
            _ => Step::Bad,
        },
        ResultsMode::Name => match sort {
            Sort::Quoted => put(Part::Name, Mode::Operands(OperandsMode::Open)),
            _ => Step::Bad,
        },
    }
}

// What a token does in the operands of an operation.
fn operands_step(mode: OperandsMode, sort: Sort) -> Step
    ensures { result ≡ operands_step mode sort }
{
    match mode {
        OperandsMode::Open => match sort {
            Sort::OpenRound => skip(Mode::Operands(OperandsMode::First)),
            _ => Step::Bad,
        },
        OperandsMode::First => match sort {
            Sort::Value => put(Part::Operand, Mode::Operands(OperandsMode::Behind)),
            Sort::CloseRound => skip(Mode::Parts(PartsMode::Operands)),
            _ => Step::Bad,
        },
        OperandsMode::Behind => match sort {
            Sort::Attribute => put(Part::Index, Mode::Operands(OperandsMode::Indexed)),
            Sort::Comma => skip(Mode::Operands(OperandsMode::Next)),
            Sort::CloseRound => skip(Mode::Parts(PartsMode::Operands)),
            _ => Step::Bad,
        },
        OperandsMode::Indexed => match sort {
            Sort::Comma => skip(Mode::Operands(OperandsMode::Next)),
            Sort::CloseRound => skip(Mode::Parts(PartsMode::Operands)),
            _ => Step::Bad,
        },
        OperandsMode::Next => match sort {
            Sort::Value => put(Part::Operand, Mode::Operands(OperandsMode::Behind)),
            _ => Step::Bad,
        },
    }
}

// What a token does between the operands of an operation and its attributes.
fn parts_step(mode: PartsMode, sort: Sort) -> Step
    ensures { result ≡ parts_step mode sort }
{
    match mode {
        PartsMode::Operands => match sort {
            Sort::OpenSquare => skip(Mode::Parts(PartsMode::NextSuccessor)),
            Sort::Group => put(Part::Properties, Mode::Parts(PartsMode::Properties)),
            Sort::OpenRound => skip(Mode::Parts(PartsMode::NextRegion)),
            Sort::OpenCurly => skip(Mode::Entries(EntriesMode::First)),
            Sort::Colon => skip(Mode::Types(TypesMode::Open)),
            _ => Step::Bad,
        },
        PartsMode::NextSuccessor => match sort {
            Sort::Block => put(Part::Successor, Mode::Parts(PartsMode::Successor)),
            _ => Step::Bad,
        },
        PartsMode::Successor => match sort {
            Sort::Comma => skip(Mode::Parts(PartsMode::NextSuccessor)),
            Sort::CloseSquare => skip(Mode::Parts(PartsMode::Successors)),
            _ => Step::Bad,
        },
        PartsMode::Successors => match sort {
            Sort::Group => put(Part::Properties, Mode::Parts(PartsMode::Properties)),
            Sort::OpenRound => skip(Mode::Parts(PartsMode::NextRegion)),
            Sort::OpenCurly => skip(Mode::Entries(EntriesMode::First)),
            Sort::Colon => skip(Mode::Types(TypesMode::Open)),
            _ => Step::Bad,
        },
        PartsMode::Properties => match sort {
            Sort::OpenRound => skip(Mode::Parts(PartsMode::NextRegion)),
            Sort::OpenCurly => skip(Mode::Entries(EntriesMode::First)),
            Sort::Colon => skip(Mode::Types(TypesMode::Open)),
            _ => Step::Bad,
        },
        PartsMode::NextRegion => match sort {
            Sort::OpenCurly => Step::Go {
                ended: None,
                action: Action::Open,
                to: Mode::Body,
            },
            _ => Step::Bad,
        },
        PartsMode::Region => match sort {
            Sort::Comma => skip(Mode::Parts(PartsMode::NextRegion)),
            Sort::CloseRound => skip(Mode::Parts(PartsMode::Regions)),
            _ => Step::Bad,
        },
        PartsMode::Regions => match sort {
            Sort::OpenCurly => skip(Mode::Entries(EntriesMode::First)),
            Sort::Colon => skip(Mode::Types(TypesMode::Open)),
            _ => Step::Bad,
        },
    }
}

// What a token does in the attributes of an operation.
fn entries_step(mode: EntriesMode, sort: Sort) -> Step
    ensures { result ≡ entries_step mode sort }
{
    match mode {
        EntriesMode::First => match sort {
            Sort::Word | Sort::Loc | Sort::Quoted => {
                put(Part::Key, Mode::Entries(EntriesMode::Key))
            }
            Sort::CloseCurly => skip(Mode::Entries(EntriesMode::Colon)),
            _ => Step::Bad,
        },
        EntriesMode::Next => match sort {
            Sort::Word | Sort::Loc | Sort::Quoted => {
                put(Part::Key, Mode::Entries(EntriesMode::Key))
            }
            _ => Step::Bad,
        },
        EntriesMode::Key => match sort {
            Sort::Equals => skip(Mode::Next(TextKind::Value)),
            Sort::Comma => skip(Mode::Entries(EntriesMode::Next)),
            Sort::CloseCurly => skip(Mode::Entries(EntriesMode::Colon)),
            _ => Step::Bad,
        },
        EntriesMode::Colon => match sort {
            Sort::Colon => skip(Mode::Types(TypesMode::Open)),
            _ => Step::Bad,
        },
    }
}

// What a token does in the head of a block.
fn label_step(mode: LabelMode, sort: Sort) -> Step
    ensures { result ≡ label_step mode sort }
{
    match mode {
        LabelMode::Behind => match sort {
            Sort::OpenRound => skip(Mode::Label(LabelMode::First)),
            Sort::Colon => skip(Mode::Body),
            _ => Step::Bad,
        },
        LabelMode::First => match sort {
            Sort::Value => put(Part::Argument, Mode::Label(LabelMode::Argument)),
            Sort::CloseRound => skip(Mode::Label(LabelMode::End)),
            _ => Step::Bad,
        },
        LabelMode::Next => match sort {
            Sort::Value => put(Part::Argument, Mode::Label(LabelMode::Argument)),
            _ => Step::Bad,
        },
        LabelMode::Argument => match sort {
            Sort::Colon => skip(Mode::Next(TextKind::ArgumentType)),
            _ => Step::Bad,
        },
        LabelMode::Location => match sort {
            Sort::OpenRound => skip(Mode::Next(TextKind::ArgumentLocation)),
            _ => Step::Bad,
        },
        LabelMode::Located => match sort {
            Sort::Comma => skip(Mode::Label(LabelMode::Next)),
            Sort::CloseRound => skip(Mode::Label(LabelMode::End)),
            _ => Step::Bad,
        },
        LabelMode::End => match sort {
            Sort::Colon => skip(Mode::Body),
            _ => Step::Bad,
        },
    }
}

// What the first token of a text does.
fn begin_text(kind: TextKind, sort: Sort) -> Step
    ensures { result ≡ begin_text kind sort }
{
    match takes(kind, None, sort) {
        Some(nesting) => Step::Go {
            ended: None,
            action: Action::Start(nesting),
            to: Mode::Text(kind),
        },
        None => Step::Bad,
    }
}

// What a token does in the types of an operation.
fn types_step(mode: TypesMode, sort: Sort) -> Step
    ensures { result ≡ types_step mode sort }
{
    match mode {
        TypesMode::Open => match sort {
            Sort::OpenRound => skip(Mode::Types(TypesMode::FirstOperand)),
            _ => Step::Bad,
        },
        TypesMode::FirstOperand => match sort {
            Sort::CloseRound => skip(Mode::Types(TypesMode::Arrow)),
            _ => begin_text(TextKind::OperandType, sort),
        },
        TypesMode::Arrow => match sort {
            Sort::Arrow => skip(Mode::Types(TypesMode::Results)),
            _ => Step::Bad,
        },
        TypesMode::Results => match sort {
            Sort::OpenRound => skip(Mode::Types(TypesMode::FirstResult)),
            Sort::Word | Sort::Type => Step::Go {
                ended: None,
                action: Action::Start(Nesting::Kept),
                to: Mode::Bare,
            },
            _ => Step::Bad,
        },
        TypesMode::FirstResult => match sort {
            Sort::CloseRound => skip(Mode::After),
            _ => begin_text(TextKind::ResultType, sort),
        },
        TypesMode::Location => match sort {
            Sort::OpenRound => skip(Mode::Next(TextKind::Location)),
            _ => Step::Bad,
        },
    }
}

// Where the reader goes on behind a token that ends a text.
fn stops_outside(kind: TextKind, sort: Sort) -> Option<Mode>
    ensures { result ≡ stops_outside kind sort }
{
    match kind {
        TextKind::Value => match sort {
            Sort::Comma => Some(Mode::Entries(EntriesMode::Next)),
            Sort::CloseCurly => Some(Mode::Entries(EntriesMode::Colon)),
            _ => None,
        },
        TextKind::OperandType => match sort {
            Sort::Comma => Some(Mode::Next(TextKind::OperandType)),
            Sort::CloseRound => Some(Mode::Types(TypesMode::Arrow)),
            _ => None,
        },
        TextKind::ResultType => match sort {
            Sort::Comma => Some(Mode::Next(TextKind::ResultType)),
            Sort::CloseRound => Some(Mode::After),
            _ => None,
        },
        TextKind::Location => match sort {
            Sort::CloseRound => Some(Mode::Body),
            _ => None,
        },
        TextKind::ArgumentType => match sort {
            Sort::Comma => Some(Mode::Label(LabelMode::Next)),
            Sort::CloseRound => Some(Mode::Label(LabelMode::End)),
            Sort::Loc => Some(Mode::Label(LabelMode::Location)),
            _ => None,
        },
        TextKind::ArgumentLocation => match sort {
            Sort::CloseRound => Some(Mode::Label(LabelMode::Located)),
            _ => None,
        },
    }
}

// The same, where this is the last open bracket of the text.
fn stops(kind: TextKind, last: Option<Bracket>, sort: Sort) -> Option<Mode>
    ensures { result ≡ stops kind last sort }
{
    match last {
        None => stops_outside(kind, sort),
        Some(_) => None,
    }
}

// What a token does that is no part of the text before it.
fn text_end(kind: TextKind, to: Option<Mode>) -> Step
    ensures { result ≡ text_end kind to }
{
    match to {
        Some(to) => Step::Go {
            ended: Some(part_of_text(kind)),
            action: Action::Skip,
            to,
        },
        None => Step::Bad,
    }
}

// What a token does in a text, where this is the last open bracket.
fn text_step(kind: TextKind, last: Option<Bracket>, sort: Sort) -> Step
    ensures { result ≡ text_step kind last sort }
{
    match takes(kind, last, sort) {
        Some(nesting) => Step::Go {
            ended: None,
            action: Action::Extend(nesting),
            to: Mode::Text(kind),
        },
        None => text_end(kind, stops(kind, last, sort)),
    }
}

// What a token does where operations begin, and in a region blocks.
fn body_step(inside: bool, sort: Sort) -> Step
    ensures { result ≡ body_step inside sort }
{
    match sort {
        Sort::Value => put(Part::Result, Mode::Results(ResultsMode::Behind)),
        Sort::Quoted => put(Part::Name, Mode::Operands(OperandsMode::Open)),
        Sort::Block => {
            if inside {
                put(Part::Label, Mode::Label(LabelMode::Behind))
            } else {
                Step::Bad
            }
        }
        Sort::CloseCurly => {
            if inside {
                Step::Go {
                    ended: None,
                    action: Action::Close,
                    to: Mode::Parts(PartsMode::Region),
                }
            } else {
                Step::Bad
            }
        }
        _ => Step::Bad,
    }
}

// What a token does behind an operation.
fn after_step(inside: bool, sort: Sort) -> Step
    ensures { result ≡ after_step inside sort }
{
    match sort {
        Sort::Loc => skip(Mode::Types(TypesMode::Location)),
        _ => body_step(inside, sort),
    }
}

// The same, where a type ends before it.
fn behind_type(step: Step) -> Step
    ensures { result ≡ behind_type step }
{
    match step {
        Step::Go {
            ended: _,
            action,
            to,
        } => Step::Go {
            ended: Some(Part::OnlyResultType),
            action,
            to,
        },
        Step::Bad => Step::Bad,
    }
}

// What a token does behind a type in no parentheses.
fn bare_step(inside: bool, sort: Sort) -> Step
    ensures { result ≡ bare_step inside sort }
{
    match sort {
        Sort::Group => Step::Go {
            ended: None,
            action: Action::Join(Part::OnlyResultType),
            to: Mode::After,
        },
        _ => behind_type(after_step(inside, sort)),
    }
}

/// What a token does, in a region or outside all; `last` is the last open bracket of the text in which the reader is.
pub(crate) fn tree_step(mode: Mode, inside: bool, last: Option<Bracket>, sort: Sort) -> Step
    ensures { result ≡ tree_step mode inside last sort }
{
    match mode {
        Mode::Start | Mode::Body => body_step(inside, sort),
        Mode::After => after_step(inside, sort),
        Mode::Bare => bare_step(inside, sort),
        Mode::Results(mode) => results_step(mode, sort),
        Mode::Operands(mode) => operands_step(mode, sort),
        Mode::Parts(mode) => parts_step(mode, sort),
        Mode::Entries(mode) => entries_step(mode, sort),
        Mode::Types(mode) => types_step(mode, sort),
        Mode::Label(mode) => label_step(mode, sort),
        Mode::Next(kind) => begin_text(kind, sort),
        Mode::Text(kind) => text_step(kind, last, sort),
    }
}

/// Whether the tokens may end here, in a region or outside all.
pub(crate) fn is_whole(mode: Mode, inside: bool) -> bool
    ensures { result ≡ is_whole mode inside }
{
    match mode {
        Mode::Body | Mode::After | Mode::Bare => !inside,
        _ => false,
    }
}

// What has to stand where operations begin.
fn wanted_in_body(inside: bool) -> Wanted
    ensures { result ≡ wanted_in_body inside }
{
    if inside {
        Wanted::Inside
    } else {
        Wanted::Operation
    }
}

// What has to stand in the results of an operation.
fn wanted_in_results(mode: ResultsMode) -> Wanted
    ensures { result ≡ wanted_in_results mode }
{
    match mode {
        ResultsMode::Behind => Wanted::AfterResult,
        ResultsMode::Count => Wanted::Count,
        ResultsMode::Counted => Wanted::AfterCount,
        ResultsMode::Next => Wanted::ValueName,
        ResultsMode::Name => Wanted::OperationName,
    }
}

// What has to stand in its operands.
fn wanted_in_operands(mode: OperandsMode) -> Wanted
    ensures { result ≡ wanted_in_operands mode }
{
    match mode {
        OperandsMode::Open => Wanted::OpenParenthesis,
        OperandsMode::First => Wanted::FirstOperand,
        OperandsMode::Behind => Wanted::AfterOperand,
        OperandsMode::Indexed => Wanted::CommaOrParenthesis,
        OperandsMode::Next => Wanted::ValueName,
    }
}

// What has to stand between its operands and its attributes.
fn wanted_in_parts(mode: PartsMode) -> Wanted
    ensures { result ≡ wanted_in_parts mode }
{
    match mode {
        PartsMode::Operands => Wanted::AfterOperands,
        PartsMode::NextSuccessor => Wanted::BlockName,
        PartsMode::Successor => Wanted::AfterSuccessor,
        PartsMode::Successors => Wanted::AfterSuccessors,
        PartsMode::Properties => Wanted::AfterProperties,
        PartsMode::NextRegion => Wanted::Region,
        PartsMode::Region => Wanted::CommaOrParenthesis,
        PartsMode::Regions => Wanted::AfterRegions,
    }
}

// What has to stand in its attributes.
fn wanted_in_entries(mode: EntriesMode) -> Wanted
    ensures { result ≡ wanted_in_entries mode }
{
    match mode {
        EntriesMode::First => Wanted::FirstKey,
        EntriesMode::Next => Wanted::Key,
        EntriesMode::Key => Wanted::AfterKey,
        EntriesMode::Colon => Wanted::Colon,
    }
}

// What has to stand in its types.
fn wanted_in_types(mode: TypesMode) -> Wanted
    ensures { result ≡ wanted_in_types mode }
{
    match mode {
        TypesMode::Open | TypesMode::Location => Wanted::OpenParenthesis,
        TypesMode::FirstOperand | TypesMode::FirstResult => Wanted::FirstType,
        TypesMode::Arrow => Wanted::Arrow,
        TypesMode::Results => Wanted::ResultTypes,
    }
}

// What has to stand in the head of a block.
fn wanted_in_label(mode: LabelMode) -> Wanted
    ensures { result ≡ wanted_in_label mode }
{
    match mode {
        LabelMode::Behind => Wanted::AfterLabel,
        LabelMode::First => Wanted::FirstArgument,
        LabelMode::Next => Wanted::ValueName,
        LabelMode::Argument | LabelMode::End => Wanted::Colon,
        LabelMode::Location => Wanted::OpenParenthesis,
        LabelMode::Located => Wanted::CommaOrParenthesis,
    }
}

// What has to stand where a text begins.
fn wanted_first(kind: TextKind) -> Wanted
    ensures { result ≡ wanted_first kind }
{
    match kind {
        TextKind::Value => Wanted::Value,
        TextKind::Location | TextKind::ArgumentLocation => Wanted::Location,
        TextKind::OperandType | TextKind::ResultType | TextKind::ArgumentType => Wanted::Type,
    }
}

// What has to stand in a text.
fn wanted_in_text(kind: TextKind) -> Wanted
    ensures { result ≡ wanted_in_text kind }
{
    match kind {
        TextKind::Value => Wanted::InValue,
        TextKind::Location | TextKind::ArgumentLocation => Wanted::InLocation,
        TextKind::OperandType | TextKind::ResultType | TextKind::ArgumentType => Wanted::InType,
    }
}

/// What has to stand here, in a region or outside all.
pub(crate) fn wanted(mode: Mode, inside: bool) -> Wanted
    ensures { result ≡ wanted mode inside }
{
    match mode {
        Mode::Start | Mode::Body | Mode::After | Mode::Bare => wanted_in_body(inside),
        Mode::Results(mode) => wanted_in_results(mode),
        Mode::Operands(mode) => wanted_in_operands(mode),
        Mode::Parts(mode) => wanted_in_parts(mode),
        Mode::Entries(mode) => wanted_in_entries(mode),
        Mode::Types(mode) => wanted_in_types(mode),
        Mode::Label(mode) => wanted_in_label(mode),
        Mode::Next(kind) => wanted_first(kind),
        Mode::Text(kind) => wanted_in_text(kind),
    }
}
