//! `ir_base::storage_uniquer`, and `ir_core::uniqued_any`.

use ir_base::context::SavedValue;
use ir_base::prelude::*;
use ir_base::storage_uniquer::UniqueStore;
use ir_core::uniqued_any;
use ir_core::uniqued_any::{Uniqued, UniquedKey};
use std::hash::Hash;

/// Stores of distinct values.
pub fn stores<T: Eq + Hash + Drop>() {
    let _ = UniqueStore::<T>::new;
    let _ = UniqueStore::<T>::get_or_create_unique;
    let _ = UniqueStore::<T>::get;
    let _ = UniqueStore::<T>::get_index;
}

/// Saved data.
pub fn saved<D: Dialects, T: SavedValue<D> + Drop>() {
    let _ = uniqued_any::save::<D, T>;
    let _ = uniqued_any::get::<D, T>;
    let _ = UniquedKey::<T>::is_known::<D>;
    let _ = UniquedKey::<T>::index;
    let _ = Uniqued::<T>::new::<D>;
    let _ = Uniqued::<T>::get::<D>;
    let _ = Uniqued::<T>::key;
}
