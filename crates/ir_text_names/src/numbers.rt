//! Numbers in a text.
ghost use Rattle.std.specs.Prelude.{◌≡◌, ◌≢◌, ℕ, ◌+◌, ◌*◌, ◌-◌, List, Option, Some, IsTrue, ◌↔◌};
ghost use Rattle.std.specs.Option.{unwrap_or};
ghost use Rattle.ir_text_names.specs.Numbers.{amount_of, is_digit, number_in};

/// A number that a text is, as far as it can be held.
#[derive(Clone, Copy, Debug, PartialEq, Eq)]
pub enum Amount {
    /// No number.
    Nothing,
    /// A number that can be held.
    Small(usize),
    /// A larger one.
    Large,
}

/// Whether the byte is a digit.
pub(crate) fn is_digit(byte: u8) -> bool
    ensures { result ≡ is_digit byte }
{
    if byte < b'0' { false } else { byte <= b'9' }
}

// The number that a digit makes behind the digits of another number.
fn extend(amount: Amount, digit: u8) -> Amount
    ensures { (n : ℕ) → amount ≡ amount_of (Some n) → result ≡ amount_of (Some (10 * n + (digit - 48))) }
{
    match amount {
        Amount::Small(number) => match number.checked_mul(10) {
            None => Amount::Large,
            Some(tens) => match tens.checked_add(digit.saturating_sub(b'0') as usize) {
                None => Amount::Large,
                Some(sum) => Amount::Small(sum),
            },
        },
        _ => amount,
    }
}

/// The decimal number that a text is.
pub(crate) fn number_in(text: &[u8]) -> Amount
    ensures { result ≡ amount_of (number_in text.now) }
{
    if text.is_empty() {
        return Amount::Nothing;
    }
    let mut amount = Amount::Small(0);
    for byte in text {
        if !is_digit(*byte) {
            return Amount::Nothing;
        }
        amount = extend(amount, *byte);
    }
    amount
}

/// The sum of two numbers.
pub(crate) fn sum_of(one: Amount, other: Amount) -> Amount
    ensures { (n m : ℕ) → one ≡ amount_of (Some n) → other ≡ amount_of (Some m) → result ≡ amount_of (Some (n + m)) }
{
    match one {
        Amount::Small(number) => match other {
            Amount::Small(more) => match number.checked_add(more) {
                None => Amount::Large,
                Some(sum) => Amount::Small(sum),
            },
            _ => other,
        },
        _ => one,
    }
}

/// The number, or 0 where there is none.
pub(crate) fn or_zero(amount: Amount) -> Amount
    ensures { (o : Option ℕ) → amount ≡ amount_of o → result ≡ amount_of (Some (unwrap_or o 0)) }
{
    match amount {
        Amount::Nothing => Amount::Small(0),
        _ => amount,
    }
}

/// Whether there is no number, or it is 0.
pub(crate) fn is_zero(amount: Amount) -> bool
    ensures { (o : Option ℕ) → amount ≡ amount_of o → (IsTrue result ↔ (unwrap_or o 0 ≡ 0)) }
{
    match amount {
        Amount::Nothing => true,
        Amount::Small(number) => number == 0,
        Amount::Large => false,
    }
}

/// Whether the number is that one.
pub(crate) fn is_number(amount: Amount, number: usize) -> bool
    ensures { (n : ℕ) → amount ≡ amount_of (Some n) → (IsTrue result ↔ (n ≡ number)) }
{
    match amount {
        Amount::Small(held) => held == number,
        _ => false,
    }
}
