//! Rows by what they belong to and by their names.
ghost use Rattle.std.specs.Prelude.{◌≡◌, ℕ, List, Some, IfOk, OnOk, if◌then◌else◌, ◌&&◌, nat_eq, is_some, None};
ghost use Rattle.std.specs.Str.{bytes_eq};
ghost use Rattle.ir_text_names.specs.Places.{row_at};

use std::alloc::AllocError;
use std::collections::HashMap;

// Puts the row; the row that stood there before.
fn put<'a>(
    places: &mut HashMap<(usize, &'a [u8]), usize>,
    scope: usize,
    name: &'a [u8],
    row: usize,
) -> Result<Option<usize>, AllocError>
    ensures old { IfOk result (λ old. old ≡ row_at places.old scope name.now) }
    ensures puts { OnOk result ((s : ℕ) (n : List ℕ) → row_at places.new s n ≡ (if nat_eq scope s && bytes_eq name.now n then Some row else row_at places.old s n)) }
{
    match places.insert((scope, name), row) {
        Ok(old) => Ok(old),
        Err(_) => Err(AllocError),
    }
}

// The row that was put last there, if any was.
fn find(places: &HashMap<(usize, &[u8]), usize>, scope: usize, name: &[u8]) -> Option<usize>
    ensures { result ≡ row_at places.now scope name.now }
{
    places.get(&(scope, name)).copied()
}

/// Puts the row, if it is one to be put; whether another stood there before.
pub(crate) fn put_if<'a>(
    places: &mut HashMap<(usize, &'a [u8]), usize>,
    is: bool,
    scope: usize,
    name: &'a [u8],
    row: usize,
) -> Result<bool, AllocError>
    ensures again { IfOk result (λ again. again ≡ (is && is_some (row_at places.old scope name.now))) }
    ensures puts { OnOk result ((s : ℕ) (n : List ℕ) → row_at places.new s n ≡ (if is && (nat_eq scope s && bytes_eq name.now n) then Some row else row_at places.old s n)) }
{
    if !is {
        return Ok(false);
    }
    let old = put(places, scope, name, row)?;
    Ok(old.is_some())
}

/// The row that was put last there, if it is looked for.
#[inline(always)]
pub(crate) fn find_if(
    places: &HashMap<(usize, &[u8]), usize>,
    is: bool,
    scope: usize,
    name: &[u8],
) -> Option<usize>
    ensures { result ≡ (if is then row_at places.now scope name.now else None) }
{
    if is { find(places, scope, name) } else { None }
}
