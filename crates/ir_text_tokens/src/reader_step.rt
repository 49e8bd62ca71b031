//! What a byte does to the reader: the table of the tokens.
ghost use Rattle.std.specs.Prelude.{◌≡◌, ◌+◌, ◌<◌, if◌then◌else◌, drop, length, slice_index_or};
ghost use Rattle.ir_text_tokens.specs.ByteClasses.{class_of_byte, class_ahead};
ghost use Rattle.ir_text_tokens.specs.declared.byte_class.Class.TheVariants as classes;
ghost use Rattle.ir_text_tokens.specs.declared.reader_step.Mode.TheVariants as modes;
ghost use Rattle.ir_text_tokens.specs.declared.reader_step.Step.TheVariants.{Go};
ghost use Rattle.ir_text_tokens.specs.declared.reader_step.Nesting.TheVariants.{Kept};
ghost use Rattle.ir_text_tokens.specs.Readings.{innermost};
ghost use Rattle.ir_text_tokens.specs.ReaderSteps.{go, is_hex, word_step, number_step, name_step, lone_sign, sign_step, begin_step, same_bracket, closing_step, group_step, quote_step, string_step, escape_step, hex_step, comment_step, reader_step, start_at, glued_behind, missing_at_end};

use crate::byte_class::{Class, class_at, class_of};
use crate::fault::Problem;
use crate::going_on::{name_goes_on, number_goes_on, word_goes_on};
use crate::token::{Bracket, Kind, Mark, Sign};

/// What a string stands in.
#[derive(Clone, Copy)]
pub enum Around {
    /// In no group: it is a token.
    Nothing,
    /// In a group.
    Group,
}

/// Where the reader is.
#[derive(Clone, Copy)]
pub enum Mode {
    /// Outside all tokens.
    Between,
    /// In a comment.
    Comment,
    /// In a word.
    Word,
    /// In a name of digits.
    Number(Sign),
    /// In another name.
    Name(Sign),
    /// Before the second byte of an arrow.
    Arrow,
    /// In a string.
    Quoted(Around),
    /// In a string, behind a backslash.
    Escape(Around),
    /// In a string, behind the first hexadecimal digit of an escape.
    Hex(Around),
    /// In a group.
    Group,
    /// In a group, before the second byte of an arrow.
    GroupArrow,
}

/// What becomes of the brackets that are open in a group, apart from its first.
#[derive(Clone, Copy)]
pub enum Nesting {
    /// They stay.
    Kept,
    /// One more is opened.
    Opened(Bracket),
    /// The last is closed.
    Closed,
}

/// What a byte does.
#[derive(Clone, Copy)]
pub enum Step {
    /// The reader goes on there, in these brackets.
    Go(Mode, Nesting),
    /// It ends a token.
    Emit(Kind),
    /// It can't stand here.
    Bad(Problem),
}

// The reader goes on there, in the same brackets.
fn go(mode: Mode) -> Step
    ensures { result ≡ Go mode Kept }
{
    Step::Go(mode, Nesting::Kept)
}

// A hexadecimal digit.
fn is_hex(class: Class) -> bool
    ensures { result ≡ is_hex class }
{
    matches!(class, Class::Digit | Class::HexLetter)
}

// What follows a byte of a word, where that index is the next.
fn word_step(text: &[u8], next: usize) -> Step
    ensures { result ≡ word_step (class_ahead (drop next text.now)) }
{
    if word_goes_on(text, next) {
        go(Mode::Word)
    } else {
        Step::Emit(Kind::Word)
    }
}

// What follows a digit of a name of digits.
fn number_step(text: &[u8], sign: Sign, next: usize) -> Step
    ensures { result ≡ number_step sign (class_ahead (drop next text.now)) }
{
    if number_goes_on(text, next) {
        go(Mode::Number(sign))
    } else {
        Step::Emit(Kind::Name(sign))
    }
}

// What follows a byte of another name.
fn name_step(text: &[u8], sign: Sign, next: usize) -> Step
    ensures { result ≡ name_step sign (class_ahead (drop next text.now)) }
{
    if name_goes_on(text, next) {
        go(Mode::Name(sign))
    } else {
        Step::Emit(Kind::Name(sign))
    }
}

// What a sign does where its name follows; `number` says whether it begins with a digit.
fn name_begins(sign: Sign, number: bool) -> Step
    ensures { result ≡ (if number then go (modes.Number sign) else go (modes.Name sign)) }
{
    if number {
        go(Mode::Number(sign))
    } else {
        go(Mode::Name(sign))
    }
}

// What a sign does where no name follows; those of values and blocks don't stand alone.
fn lone_sign(sign: Sign) -> Step
    ensures { result ≡ lone_sign sign }
{
    match sign {
        Sign::Value | Sign::Block => Step::Bad(Problem::Character),
        Sign::Symbol | Sign::Attribute | Sign::Type => Step::Emit(Kind::Name(sign)),
    }
}

// What a sign does.
fn sign_step(text: &[u8], sign: Sign, next: usize) -> Step
    ensures { result ≡ sign_step sign (class_ahead (drop next text.now)) }
{
    if name_goes_on(text, next) {
        name_begins(sign, number_goes_on(text, next))
    } else {
        lone_sign(sign)
    }
}

// What `/` does outside all tokens.
fn slash_step(next: Class) -> Step
    ensures { result ≡ begin_step classes.Slash next }
{
    match next {
        Class::Slash => go(Mode::Comment),
        _ => Step::Bad(Problem::Character),
    }
}

// What `-` does outside all tokens.
fn dash_step(next: Class) -> Step
    ensures { result ≡ begin_step classes.Dash next }
{
    match next {
        Class::Greater => go(Mode::Arrow),
        _ => Step::Emit(Kind::Mark(Mark::Minus)),
    }
}

// What a byte of this class does outside all tokens, where that index is the next.
#[inline(always)]
fn begin_step(text: &[u8], class: Class, next: usize) -> Step
    ensures { result ≡ begin_step class (class_ahead (drop next text.now)) }
{
    match class {
        Class::Newline | Class::Blank => go(Mode::Between),
        Class::Slash => slash_step(class_at(text, next)),
        Class::Digit | Class::HexLetter | Class::EscapeLetter | Class::Letter => {
            word_step(text, next)
        }
        Class::Sign(sign) => sign_step(text, sign, next),
        Class::Quote => go(Mode::Quoted(Around::Nothing)),
        Class::Dash => dash_step(class_at(text, next)),
        Class::Less => go(Mode::Group),
        Class::Equals => Step::Emit(Kind::Mark(Mark::Equals)),
        Class::Open(bracket) => Step::Emit(Kind::Mark(Mark::Open(bracket))),
        Class::Close(bracket) => Step::Emit(Kind::Mark(Mark::Close(bracket))),
        Class::Mark(mark) => Step::Emit(Kind::Mark(mark)),
        Class::Greater | Class::Backslash | Class::Other => Step::Bad(Problem::Character),
    }
}

// Whether the brackets are of one sort.
fn same_bracket(first: Bracket, second: Bracket) -> bool
    ensures { result ≡ same_bracket first second }
{
    match (first, second) {
        (Bracket::Round, Bracket::Round) => true,
        (Bracket::Square, Bracket::Square) => true,
        (Bracket::Curly, Bracket::Curly) => true,
        (Bracket::Angle, Bracket::Angle) => true,
        _ => false,
    }
}

// The last of the open brackets.
fn innermost(brackets: &Vec<Bracket>) -> Option<Bracket>
    ensures { result ≡ innermost brackets.now.items }
{
    brackets.last().copied()
}

// What a closing bracket does in a group: it closes the last that was opened, or the group.
fn closing_step(bracket: Bracket, last: Option<Bracket>) -> Step
    ensures { result ≡ closing_step bracket last }
{
    match last {
        Some(opened) => {
            if same_bracket(opened, bracket) {
                Step::Go(Mode::Group, Nesting::Closed)
            } else {
                Step::Bad(Problem::Bracket)
            }
        }
        None => match bracket {
            Bracket::Angle => Step::Emit(Kind::Group),
            _ => Step::Bad(Problem::Bracket),
        },
    }
}

// What a byte does in a group, where this is the last bracket that was opened behind its first.
fn group_step(last: Option<Bracket>, class: Class, next: Class) -> Step
    ensures { result ≡ group_step last class next }
{
    match class {
        Class::Quote => go(Mode::Quoted(Around::Group)),
        Class::Less => Step::Go(Mode::Group, Nesting::Opened(Bracket::Angle)),
        Class::Open(bracket) => Step::Go(Mode::Group, Nesting::Opened(bracket)),
        Class::Dash => match next {
            Class::Greater => go(Mode::GroupArrow),
            _ => go(Mode::Group),
        },
        Class::Greater => match next {
            Class::Equals => go(Mode::Group),
            _ => closing_step(Bracket::Angle, last),
        },
        Class::Close(bracket) => closing_step(bracket, last),
        _ => go(Mode::Group),
    }
}

// What the quote at the end of a string does.
fn quote_step(around: Around) -> Step
    ensures { result ≡ quote_step around }
{
    match around {
        Around::Nothing => Step::Emit(Kind::Quoted),
        Around::Group => go(Mode::Group),
    }
}

// What a byte does in a string.
fn string_step(around: Around, class: Class) -> Step
    ensures { result ≡ string_step around class }
{
    match class {
        Class::Quote => quote_step(around),
        Class::Backslash => go(Mode::Escape(around)),
        Class::Newline => Step::Bad(Problem::OpenString),
        _ => go(Mode::Quoted(around)),
    }
}

// What a byte does behind a backslash.
fn escape_step(around: Around, class: Class) -> Step
    ensures { result ≡ escape_step around class }
{
    match class {
        Class::Quote | Class::Backslash | Class::EscapeLetter => go(Mode::Quoted(around)),
        Class::Digit | Class::HexLetter => go(Mode::Hex(around)),
        _ => Step::Bad(Problem::Escape),
    }
}

// What a byte does behind the first hexadecimal digit of an escape.
fn hex_step(around: Around, class: Class) -> Step
    ensures { result ≡ hex_step around class }
{
    if is_hex(class) {
        go(Mode::Quoted(around))
    } else {
        Step::Bad(Problem::Escape)
    }
}

// What a byte does in a comment.
fn comment_step(class: Class) -> Step
    ensures { result ≡ comment_step class }
{
    match class {
        Class::Newline => go(Mode::Between),
        _ => go(Mode::Comment),
    }
}

/// What the byte at that index does; `brackets` are those that are open in the group, behind its first. The byte and the one behind it are looked at only where they count.
#[inline(always)]
pub(crate) fn reader_step(text: &[u8], mode: Mode, brackets: &Vec<Bracket>, at: usize) -> Step
    requires { at < length text.now }
    ensures { result ≡ reader_step mode (innermost brackets.now.items) (class_of_byte (slice_index_or text.now at 0)) (class_ahead (drop (at + 1) text.now)) }
{
    match mode {
        Mode::Between => begin_step(text, class_of(text[at]), at + 1),
        Mode::Comment => comment_step(class_of(text[at])),
        Mode::Word => word_step(text, at + 1),
        Mode::Number(sign) => number_step(text, sign, at + 1),
        Mode::Name(sign) => name_step(text, sign, at + 1),
        Mode::Arrow => Step::Emit(Kind::Arrow),
        Mode::Quoted(around) => string_step(around, class_of(text[at])),
        Mode::Escape(around) => escape_step(around, class_of(text[at])),
        Mode::Hex(around) => hex_step(around, class_of(text[at])),
        Mode::Group => group_step(
            innermost(brackets),
            class_of(text[at]),
            class_at(text, at + 1),
        ),
        Mode::GroupArrow => go(Mode::Group),
    }
}

/// Where the token begins in which the reader goes on from this place.
pub(crate) fn start_at(mode: Mode, start: u32, at: u32) -> u32
    ensures { result ≡ start_at mode start at }
{
    match mode {
        Mode::Between | Mode::Comment => at,
        _ => start,
    }
}

/// Whether that token stands right behind another.
pub(crate) fn glued_behind(mode: Mode, glued: bool) -> bool
    ensures { result ≡ glued_behind mode glued }
{
    match mode {
        Mode::Between => false,
        _ => glued,
    }
}

/// What is missing where the text ends.
pub(crate) fn missing_at_end(mode: Mode) -> Option<Problem>
    ensures { result ≡ missing_at_end mode }
{
    match mode {
        Mode::Between | Mode::Comment => None,
        Mode::Quoted(_) | Mode::Escape(_) | Mode::Hex(_) => Some(Problem::OpenString),
        Mode::Group | Mode::GroupArrow => Some(Problem::OpenGroup),
        Mode::Word | Mode::Number(_) | Mode::Name(_) | Mode::Arrow => Some(Problem::Character),
    }
}
