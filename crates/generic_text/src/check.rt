//! What is compared.

use crate::table::Table;
use generic_dialect::Generic;
use ir_core_queries::Context;
use ir_text_names::{Names, Row};

/// A context and a tree, and what its rows define.
#[derive(Drop)]
pub(crate) struct Check<'a> {
    /// The context.
    pub(crate) ctx: &'a Context<Generic>,
    /// The text of the tree.
    pub(crate) text: &'a [u8],
    /// Its rows.
    pub(crate) rows: &'a [Row],
    /// What its names mean.
    pub(crate) names: &'a Names,
    /// What its rows define.
    pub(crate) table: &'a Table,
    /// Whether it has locations.
    pub(crate) located: bool,
}
