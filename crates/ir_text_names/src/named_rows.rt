//! Rows by their names.
ghost use Rattle.std.specs.Prelude.{◌≡◌, ℕ, ◌<◌, ◌≤◌, ◌&&◌, List, Some, None, nat_eq, vec_len, slice_index_or, OnOk, if◌then◌else◌};
ghost use Rattle.std.specs.Str.{bytes_eq};
ghost use Rattle.ir_text_names.specs.Entries.{entry};
ghost use Rattle.ir_text_names.specs.NamedRows.{below, is_marked, spot, named_row};
ghost use Rattle.ir_text_names.specs.Numbers.{digits_behind};
ghost use Rattle.ir_text_names.specs.Places.{row_at};

use crate::numbers::is_digit;
use crate::places::{find_if, put_if};
use crate::row_table::{entry, number_for};
use crate::value_numbers::behind_mark;
use std::alloc::{AllocError, Global};
use std::collections::HashMap;

/// Rows by their names. A name that is `%` and digits has a spot in a list; others are found by a hash.
#[derive(Drop)]
pub(crate) struct NamedRows<'a> {
    /// A number that no spot reaches.
    pub(crate) limit: usize,
    // For each spot 0, or 1 more than its row.
    spots: Vec<u32>,
    // The rows of other names.
    others: HashMap<(usize, &'a [u8]), usize>,
}

// Whether the text begins with `%`.
fn is_marked(text: &[u8]) -> bool
    ensures { result ≡ is_marked text.now }
{
    match text.first() {
        Some(byte) => *byte == b'%',
        None => false,
    }
}

// The number, if it is below the limit.
fn below(limit: usize, number: usize) -> Option<usize>
    ensures { result ≡ below limit (Some number) }
{
    if number < limit { Some(number) } else { None }
}

// The number that the digits make behind a 1, if they are digits and it is below the limit.
fn number_behind(limit: usize, digits: &[u8]) -> Option<usize>
    requires { limit ≤ 4294967295 }
    ensures { result ≡ below limit (digits_behind 1 digits.now) }
{
    let mut number = 1usize;
    for byte in digits {
        if !is_digit(*byte) {
            return None;
        }
        if number >= limit {
            return None;
        }
        number = 10 * number + (*byte - b'0') as usize;
    }
    below(limit, number)
}

// The spot of a name, if it has one.
fn spot(limit: usize, name: &[u8]) -> Option<usize>
    requires { limit ≤ 4294967295 }
    ensures { result ≡ spot limit name.now }
{
    if is_marked(name) {
        number_behind(limit, behind_mark(name))
    } else {
        None
    }
}

// Makes room for so many spots.
fn widen(spots: &mut Vec<u32>, room: usize) -> Result<(), AllocError>
    ensures spots { OnOk result ((k : ℕ) → slice_index_or spots.new.items k 0 ≡ slice_index_or spots.old.items k 0) }
    ensures room { OnOk result (room ≤ vec_len spots.new) }
{
    if spots.len() < room {
        spots.resize(room, 0)?;
    }
    Ok(())
}

// Puts the row at that spot.
fn put_spot(spots: &mut Vec<u32>, spot: usize, row: usize) -> Result<(), AllocError>
    requires spot { spot < 4294967295 }
    requires row { row < 4294967295 }
    ensures { OnOk result ((k : ℕ) → entry (slice_index_or spots.new.items k 0) ≡ (if nat_eq spot k then Some row else entry (slice_index_or spots.old.items k 0))) }
{
    widen(spots, spot + 1)?;
    spots[spot] = number_for(Some(row));
    Ok(())
}

// The row at that spot, if there is one.
fn row_at_spot(spots: &Vec<u32>, spot: usize) -> Option<usize>
    ensures { result ≡ entry (slice_index_or spots.now.items spot 0) }
{
    match spots.get(spot) {
        Some(number) => entry(*number),
        None => None,
    }
}

impl<'a> NamedRows<'a> {
    /// None, with spots below that limit.
    pub(crate) fn new(alloc: Global, limit: usize) -> NamedRows<'a>
        ensures none { (m : List ℕ) → named_row result m ≡ None }
        ensures limit { result.limit ≡ limit }
    {
        NamedRows {
            limit,
            spots: Vec::new(alloc),
            others: HashMap::new(alloc),
        }
    }

    /// Puts the row under that name, if it is one to be put.
    #[inline(always)]
    pub(crate) fn put_if(&mut self, is: bool, name: &'a [u8], row: usize) -> Result<(), AllocError>
        requires limit { self.old.limit ≤ 4294967295 }
        requires row { row < 4294967295 }
        ensures puts { OnOk result ((m : List ℕ) → named_row self.new m ≡ (if is && bytes_eq name.now m then Some row else named_row self.old m)) }
        ensures limit { self.new.limit ≡ self.old.limit }
    {
        if !is {
            return Ok(());
        }
        match spot(self.limit, name) {
            Some(spot) => {
                put_spot(&mut self.spots, spot, row)?;
                Ok(())
            }
            None => {
                put_if(&mut self.others, true, 0, name, row)?;
                Ok(())
            }
        }
    }

    /// The row that was put last under that name, if it is looked for.
    pub(crate) fn find_if(&self, is: bool, name: &[u8]) -> Option<usize>
        requires { self.now.limit ≤ 4294967295 }
        ensures { result ≡ (if is then named_row self.now name.now else None) }
    {
        if !is {
            return None;
        }
        match spot(self.limit, name) {
            Some(spot) => row_at_spot(&self.spots, spot),
            None => find_if(&self.others, true, 0, name),
        }
    }
}
