//! The rows of a tree, put one after another.
ghost use Rattle.std.specs.Prelude.{◌≡◌, ◌+◌, ◌-◌, take, codes, decimal, ◌≢◌, ◌⊎◌, ◌++◌, ◌≤◌, ◌<◌, ◌∷◌, [], length, nat_eq, ℕ, Some, None, IsSome, IfOk, IfErr, OnOk, OnErr, ◌^◌, if◌then◌else◌};
ghost use Rattle.std.specs.Io.{StartsWith};
ghost use Rattle.ir_text_tree.specs.Rows.{row, span};
ghost use Rattle.ir_text_pieces.specs.Names.{KeepsNames, NamesBlock, NamesValue, given_block, given_value, name_for_block, name_for_value, next_outside_block, next_outside_value, open_regions, opened, value_name};
ghost use Rattle.ir_text_pieces.specs.Pieces.{IsPiece, PiecesStand, PutsOperand, PutsPiece, PutsTwoPieces, block_text, value_text};
ghost use Rattle.ir_text_pieces.specs.declared.names.Name.{Name};
ghost use Rattle.ir_text_pieces.specs.Quotes.{key_text, quoted};
ghost use Rattle.ir_text_pieces.specs.Writings.{PutsRow, PutsTwoRows, SamePieces, name_piece, type_piece};

use crate::bare_types::is_bare_type;
use crate::description::Description;
use crate::error::DescribeErr;
use crate::names::{Name, NameSort, Names};
use crate::numbered::Numbered;
use crate::quoting::{write_key, write_quoted};
use ir_text_tree::{Part, Span};
use itoa::Buffer;
use std::alloc::Global;
use std::collections::HashMap;

/// The piece that a type is, and whether it can stand behind an arrow in no parentheses.
#[derive(Clone, Copy, Debug, Drop)]
pub struct TypePiece {
    /// The piece.
    pub span: Span,
    /// Whether it can stand in no parentheses: it is a name, or a name and one group in angle brackets.
    pub is_bare: bool,
}

/// The rows of a tree, put one after another, and the names in it. Each name, and each type, is written once in the text.
#[derive(Debug, Drop)]
pub struct TreeWriter {
    /// What is written.
    pub description: Description,
    /// The names that are given.
    pub names: Names,
    arguments: Numbered,
    values: Numbered,
    outside_values: Numbered,
    blocks: Numbered,
    outside_blocks: Numbered,
    indices: Numbered,
    operation_names: HashMap<u32, Span>,
    types: HashMap<usize, TypePiece>,
    alloc: Global,
    braces: (Span, Span),
}

impl TreeWriter {
    /// Nothing yet, in the outermost region.
    ///
    /// # Errors
    /// `OutOfMemory`.
    pub fn new(alloc: Global) -> Result<Self, DescribeErr>
        ensures rows { IfOk result (λ w. w.description.rows.items ≡ []) }
        ensures error { IfErr result (λ e. e ≡ DescribeErr.OutOfMemory) }
        ensures stand { IfOk result PiecesStand }
        // One region is open, and nothing has a name.
        ensures region { IfOk result (λ w. length (open_regions w.names) ≡ 1) }
        ensures values { IfOk result (λ w. (v : ℕ) → given_value w.names v ≡ None) }
        ensures blocks { IfOk result (λ w. (b : ℕ) → given_block w.names b ≡ None) }
        ensures operation_names { IfOk result (λ w. (kind : ℕ) → name_piece w kind ≡ None) }
        ensures types { IfOk result (λ w. (place : ℕ) → type_piece w place ≡ None) }
    {
        let mut description = Description::new(alloc);
        let braces = (description.write(b"{")?, description.write(b"}")?);
        let mut names = Names::new(alloc);
        names.open()?;
        Ok(TreeWriter {
            description,
            names,
            arguments: Numbered::new(alloc, "%arg"),
            values: Numbered::new(alloc, "%"),
            outside_values: Numbered::new(alloc, "%outside"),
            blocks: Numbered::new(alloc, "^bb"),
            outside_blocks: Numbered::new(alloc, "^outside"),
            indices: Numbered::new(alloc, "#"),
            operation_names: HashMap::new(alloc),
            types: HashMap::new(alloc),
            alloc,
            braces,
        })
    }

    // The piece that the name of a value is.
    fn value_piece(&mut self, name: Name) -> Result<Span, DescribeErr>
        ensures rows { self.new.description.rows ≡ self.old.description.rows }
        ensures front { StartsWith self.new.description.text.items self.old.description.text.items }
        ensures names { self.new.names ≡ self.old.names }
        ensures piece { PiecesStand self.old → IfOk result (λ s. IsPiece self.new.description.text.items s (value_text name)) }
        ensures stand { PiecesStand self.old → PiecesStand self.new }
        ensures long { IfErr result (λ e. e ≡ DescribeErr.TooLong → 2 ^ 32 ≤ length self.new.description.text.items) }
        ensures written_pieces { SamePieces self.old self.new }
    {
        let number = name.number;
        match name.sort {
            NameSort::Argument => self.arguments.piece(&mut self.description, number),
            NameSort::Plain => self.values.piece(&mut self.description, number),
            NameSort::Outside => self.outside_values.piece(&mut self.description, number),
        }
    }

    // The piece that the name of a block is, where it is named in the innermost region.
    fn block_piece(&mut self, block: u32) -> Result<Span, DescribeErr>
        ensures rows { self.new.description.rows ≡ self.old.description.rows }
        ensures front { StartsWith self.new.description.text.items self.old.description.text.items }
        ensures named { OnOk result (NamesBlock self.old.names block self.new.names) }
        ensures keeps { OnErr result (NamesBlock self.old.names block self.new.names ⊎ KeepsNames self.old.names self.new.names) }
        ensures piece { PiecesStand self.old → IfOk result (λ s. IsPiece self.new.description.text.items s (block_text (name_for_block self.old.names block))) }
        ensures stand { PiecesStand self.old → PiecesStand self.new }
        // Too long is the text, or no number is left for what has no name.
        ensures long { IfErr result (λ e. e ≡ DescribeErr.TooLong → (2 ^ 32 ≤ length self.new.description.text.items) ⊎ (next_outside_block self.old.names + 1 ≡ 2 ^ 32)) }
        ensures written_pieces { SamePieces self.old self.new }
    {
        let name = self.names.block(block)?;
        let number = name.number;
        match name.sort {
            NameSort::Outside => self.outside_blocks.piece(&mut self.description, number),
            _ => self.blocks.piece(&mut self.description, number),
        }
    }

    // Puts the name of a value as this part.
    fn put_value(&mut self, part: Part, value: u64) -> Result<Name, DescribeErr>
        ensures name { IfOk result (λ x. x ≡ name_for_value self.old.names value) }
        ensures row { OnOk result (PutsRow part self.old.description.rows.items self.new.description.rows.items) }
        ensures kept { OnErr result (self.new.description.rows.items ≡ self.old.description.rows.items) }
        ensures front { StartsWith self.new.description.text.items self.old.description.text.items }
        ensures piece { PiecesStand self.old → OnOk result (PutsPiece part (value_text (name_for_value self.old.names value)) self.old.description self.new.description) }
        ensures named { OnOk result (NamesValue self.old.names value self.new.names) }
        ensures keeps { OnErr result (NamesValue self.old.names value self.new.names ⊎ KeepsNames self.old.names self.new.names) }
        ensures stand { PiecesStand self.old → PiecesStand self.new }
        // Too long is the text, or no number is left for what has no name.
        ensures long { IfErr result (λ e. e ≡ DescribeErr.TooLong → (2 ^ 32 ≤ length self.new.description.text.items) ⊎ (next_outside_value self.old.names + 1 ≡ 2 ^ 32)) }
        ensures written_pieces { SamePieces self.old self.new }
    {
        let name = self.names.value(value)?;
        let span = self.value_piece(name)?;
        self.description.put(part, span)?;
        Ok(name)
    }

    // Puts the name of a block as this part.
    fn put_block(&mut self, part: Part, block: u32) -> Result<(), DescribeErr>
        ensures row { OnOk result (PutsRow part self.old.description.rows.items self.new.description.rows.items) }
        ensures kept { OnErr result (self.new.description.rows.items ≡ self.old.description.rows.items) }
        ensures front { StartsWith self.new.description.text.items self.old.description.text.items }
        ensures piece { PiecesStand self.old → OnOk result (PutsPiece part (block_text (name_for_block self.old.names block)) self.old.description self.new.description) }
        ensures named { OnOk result (NamesBlock self.old.names block self.new.names) }
        ensures keeps { OnErr result (NamesBlock self.old.names block self.new.names ⊎ KeepsNames self.old.names self.new.names) }
        ensures stand { PiecesStand self.old → PiecesStand self.new }
        // Too long is the text, or no number is left for what has no name.
        ensures long { IfErr result (λ e. e ≡ DescribeErr.TooLong → (2 ^ 32 ≤ length self.new.description.text.items) ⊎ (next_outside_block self.old.names + 1 ≡ 2 ^ 32)) }
        ensures written_pieces { SamePieces self.old self.new }
    {
        let span = self.block_piece(block)?;
        self.description.put(part, span)
    }

    // Puts the count of several results.
    fn put_count(&mut self, count: usize) -> Result<(), DescribeErr>
        ensures row { OnOk result (PutsRow Part.Count self.old.description.rows.items self.new.description.rows.items) }
        ensures kept { OnErr result (self.new.description.rows.items ≡ self.old.description.rows.items) }
        ensures piece { PiecesStand self.old → OnOk result (PutsPiece Part.Count (decimal count) self.old.description self.new.description) }
        ensures names { self.new.names ≡ self.old.names }
        ensures front { StartsWith self.new.description.text.items self.old.description.text.items }
        ensures stand { PiecesStand self.old → PiecesStand self.new }
        ensures long { IfErr result (λ e. e ≡ DescribeErr.TooLong → 2 ^ 32 ≤ length self.new.description.text.items) }
        ensures written_pieces { SamePieces self.old self.new }
    {
        let mut buffer = Buffer::new();
        let span = self.description.write(buffer.format(count).as_bytes())?;
        self.description.put(Part::Count, span)
    }

    // Puts which of several results a value is.
    fn put_index(&mut self, index: u32) -> Result<(), DescribeErr>
        ensures row { OnOk result (PutsRow Part.Index self.old.description.rows.items self.new.description.rows.items) }
        ensures kept { OnErr result (self.new.description.rows.items ≡ self.old.description.rows.items) }
        ensures piece { PiecesStand self.old → OnOk result (PutsPiece Part.Index (codes "#" ++ decimal index) self.old.description self.new.description) }
        ensures names { self.new.names ≡ self.old.names }
        ensures front { StartsWith self.new.description.text.items self.old.description.text.items }
        ensures stand { PiecesStand self.old → PiecesStand self.new }
        ensures long { IfErr result (λ e. e ≡ DescribeErr.TooLong → 2 ^ 32 ≤ length self.new.description.text.items) }
        ensures written_pieces { SamePieces self.old self.new }
    {
        let span = self.indices.piece(&mut self.description, index)?;
        self.description.put(Part::Index, span)
    }

    /// Puts the name of the results of an operation, of which this is the first.
    ///
    /// # Errors
    /// `OutOfMemory` or `TooLong`.
    pub fn put_results(&mut self, first: u64, count: usize) -> Result<(), DescribeErr>
        ensures one { count ≤ 1 → OnOk result (PutsRow Part.Result self.old.description.rows.items self.new.description.rows.items) }
        ensures several { 1 < count → OnOk result (PutsTwoRows Part.Result Part.Count self.old.description.rows.items self.new.description.rows.items) }
        // What fails has put the name alone, or nothing.
        ensures kept { OnErr result ((self.new.description.rows.items ≡ self.old.description.rows.items) ⊎ PutsRow Part.Result self.old.description.rows.items self.new.description.rows.items) }
        ensures front { StartsWith self.new.description.text.items self.old.description.text.items }
        // The name is that of the first, and the count stands behind it in decimal digits.
        ensures name { PiecesStand self.old → count ≤ 1 → OnOk result (PutsPiece Part.Result (value_text (name_for_value self.old.names first)) self.old.description self.new.description) }
        ensures name_and_count { PiecesStand self.old → 1 < count → OnOk result (PutsTwoPieces Part.Result (value_text (name_for_value self.old.names first)) Part.Count (decimal count) self.old.description self.new.description) }
        ensures named { OnOk result (NamesValue self.old.names first self.new.names) }
        ensures keeps { OnErr result (NamesValue self.old.names first self.new.names ⊎ KeepsNames self.old.names self.new.names) }
        ensures stand { PiecesStand self.old → PiecesStand self.new }
        // Too long is the text, or no number is left for what has no name.
        ensures long { IfErr result (λ e. e ≡ DescribeErr.TooLong → (2 ^ 32 ≤ length self.new.description.text.items) ⊎ (next_outside_value self.old.names + 1 ≡ 2 ^ 32)) }
        ensures written_pieces { SamePieces self.old self.new }
    {
        self.put_value(Part::Result, first)?;
        if count > 1 {
            self.put_count(count)?;
        }
        Ok(())
    }

    /// Puts a value as an operand.
    ///
    /// # Errors
    /// `OutOfMemory` or `TooLong`.
    pub fn put_operand(&mut self, value: u64) -> Result<(), DescribeErr>
        ensures rows { OnOk result (PutsRow Part.Operand self.old.description.rows.items self.new.description.rows.items ⊎ PutsTwoRows Part.Operand Part.Index self.old.description.rows.items self.new.description.rows.items) }
        ensures alone { (name_for_value self.old.names value).index ≡ None → OnOk result (PutsRow Part.Operand self.old.description.rows.items self.new.description.rows.items) }
        ensures indexed { IsSome (name_for_value self.old.names value).index → OnOk result (PutsTwoRows Part.Operand Part.Index self.old.description.rows.items self.new.description.rows.items) }
        // What fails has put the name alone, or nothing.
        ensures kept { OnErr result ((self.new.description.rows.items ≡ self.old.description.rows.items) ⊎ PutsRow Part.Operand self.old.description.rows.items self.new.description.rows.items) }
        ensures front { StartsWith self.new.description.text.items self.old.description.text.items }
        ensures piece { PiecesStand self.old → OnOk result (PutsOperand (name_for_value self.old.names value) (name_for_value self.old.names value).index self.old.description self.new.description) }
        ensures named { OnOk result (NamesValue self.old.names value self.new.names) }
        ensures keeps { OnErr result (NamesValue self.old.names value self.new.names ⊎ KeepsNames self.old.names self.new.names) }
        ensures stand { PiecesStand self.old → PiecesStand self.new }
        // Too long is the text, or no number is left for what has no name.
        ensures long { IfErr result (λ e. e ≡ DescribeErr.TooLong → (2 ^ 32 ≤ length self.new.description.text.items) ⊎ (next_outside_value self.old.names + 1 ≡ 2 ^ 32)) }
        ensures written_pieces { SamePieces self.old self.new }
    {
        let name = self.put_value(Part::Operand, value)?;
        if let Some(index) = name.index {
            self.put_index(index)?;
        }
        Ok(())
    }

    /// Puts a block as a successor.
    ///
    /// # Errors
    /// `OutOfMemory` or `TooLong`.
    pub fn put_successor(&mut self, block: u32) -> Result<(), DescribeErr>
        ensures row { OnOk result (PutsRow Part.Successor self.old.description.rows.items self.new.description.rows.items) }
        ensures kept { OnErr result (self.new.description.rows.items ≡ self.old.description.rows.items) }
        ensures front { StartsWith self.new.description.text.items self.old.description.text.items }
        ensures piece { PiecesStand self.old → OnOk result (PutsPiece Part.Successor (block_text (name_for_block self.old.names block)) self.old.description self.new.description) }
        ensures named { OnOk result (NamesBlock self.old.names block self.new.names) }
        ensures keeps { OnErr result (NamesBlock self.old.names block self.new.names ⊎ KeepsNames self.old.names self.new.names) }
        ensures stand { PiecesStand self.old → PiecesStand self.new }
        // Too long is the text, or no number is left for what has no name.
        ensures long { IfErr result (λ e. e ≡ DescribeErr.TooLong → (2 ^ 32 ≤ length self.new.description.text.items) ⊎ (next_outside_block self.old.names + 1 ≡ 2 ^ 32)) }
        ensures written_pieces { SamePieces self.old self.new }
    {
        self.put_block(Part::Successor, block)
    }

    /// Puts the name of a block at its beginning.
    ///
    /// # Errors
    /// `OutOfMemory` or `TooLong`.
    pub fn put_label(&mut self, block: u32) -> Result<(), DescribeErr>
        ensures row { OnOk result (PutsRow Part.Label self.old.description.rows.items self.new.description.rows.items) }
        ensures kept { OnErr result (self.new.description.rows.items ≡ self.old.description.rows.items) }
        ensures front { StartsWith self.new.description.text.items self.old.description.text.items }
        ensures piece { PiecesStand self.old → OnOk result (PutsPiece Part.Label (block_text (name_for_block self.old.names block)) self.old.description self.new.description) }
        ensures named { OnOk result (NamesBlock self.old.names block self.new.names) }
        ensures keeps { OnErr result (NamesBlock self.old.names block self.new.names ⊎ KeepsNames self.old.names self.new.names) }
        ensures stand { PiecesStand self.old → PiecesStand self.new }
        // Too long is the text, or no number is left for what has no name.
        ensures long { IfErr result (λ e. e ≡ DescribeErr.TooLong → (2 ^ 32 ≤ length self.new.description.text.items) ⊎ (next_outside_block self.old.names + 1 ≡ 2 ^ 32)) }
        ensures written_pieces { SamePieces self.old self.new }
    {
        self.put_block(Part::Label, block)
    }

    /// Puts an argument of a block, without its type.
    ///
    /// # Errors
    /// `OutOfMemory` or `TooLong`.
    pub fn put_argument(&mut self, value: u64) -> Result<(), DescribeErr>
        ensures row { OnOk result (PutsRow Part.Argument self.old.description.rows.items self.new.description.rows.items) }
        ensures kept { OnErr result (self.new.description.rows.items ≡ self.old.description.rows.items) }
        ensures front { StartsWith self.new.description.text.items self.old.description.text.items }
        ensures piece { PiecesStand self.old → OnOk result (PutsPiece Part.Argument (value_text (name_for_value self.old.names value)) self.old.description self.new.description) }
        ensures named { OnOk result (NamesValue self.old.names value self.new.names) }
        ensures keeps { OnErr result (NamesValue self.old.names value self.new.names ⊎ KeepsNames self.old.names self.new.names) }
        ensures stand { PiecesStand self.old → PiecesStand self.new }
        // Too long is the text, or no number is left for what has no name.
        ensures long { IfErr result (λ e. e ≡ DescribeErr.TooLong → (2 ^ 32 ≤ length self.new.description.text.items) ⊎ (next_outside_value self.old.names + 1 ≡ 2 ^ 32)) }
        ensures written_pieces { SamePieces self.old self.new }
    {
        self.put_value(Part::Argument, value)?;
        Ok(())
    }

    /// Begins a region.
    ///
    /// # Errors
    /// `OutOfMemory`.
    pub fn open_region(&mut self) -> Result<(), DescribeErr>
        ensures row { OnOk result (PutsRow Part.Open self.old.description.rows.items self.new.description.rows.items) }
        ensures kept { OnErr result (self.new.description.rows.items ≡ self.old.description.rows.items) }
        ensures text { self.new.description.text ≡ self.old.description.text }
        ensures error { IfErr result (λ e. e ≡ DescribeErr.OutOfMemory) }
        ensures piece { PiecesStand self.old → OnOk result (PutsPiece Part.Open (codes "{") self.old.description self.new.description) }
        ensures region { OnOk result (open_regions self.new.names ≡ open_regions self.old.names ++ opened self.old.names ∷ []) }
        // What fails has opened the region in the names, or not.
        ensures unopened { OnErr result ((open_regions self.new.names ≡ open_regions self.old.names) ⊎ (open_regions self.new.names ≡ open_regions self.old.names ++ opened self.old.names ∷ [])) }
        // What has a name keeps it.
        ensures named { (v : ℕ) (x : Name) → value_name self.old.names v ≡ Some x → value_name self.new.names v ≡ Some x }
        ensures stand { PiecesStand self.old → PiecesStand self.new }
        ensures written_pieces { SamePieces self.old self.new }
        ensures given_values { (v : ℕ) → given_value self.new.names v ≡ given_value self.old.names v }
        ensures given_blocks { (b : ℕ) → given_block self.new.names b ≡ given_block self.old.names b }
        ensures outside_values { next_outside_value self.new.names ≡ next_outside_value self.old.names }
        ensures outside_blocks { next_outside_block self.new.names ≡ next_outside_block self.old.names }
    {
        self.names.open()?;
        self.description.put(Part::Open, self.braces.0)
    }

    /// Ends the innermost region.
    ///
    /// # Errors
    /// `OutOfMemory`.
    pub fn close_region(&mut self) -> Result<(), DescribeErr>
        ensures row { OnOk result (PutsRow Part.Close self.old.description.rows.items self.new.description.rows.items) }
        ensures kept { OnErr result (self.new.description.rows.items ≡ self.old.description.rows.items) }
        ensures text { self.new.description.text ≡ self.old.description.text }
        ensures error { IfErr result (λ e. e ≡ DescribeErr.OutOfMemory) }
        ensures piece { PiecesStand self.old → OnOk result (PutsPiece Part.Close (codes "}") self.old.description self.new.description) }
        ensures region { open_regions self.new.names ≡ take (length (open_regions self.old.names) - 1) (open_regions self.old.names) }
        // What has a name behind it had that name before.
        ensures named { (v : ℕ) (x : Name) → value_name self.new.names v ≡ Some x → value_name self.old.names v ≡ Some x }
        ensures stand { PiecesStand self.old → PiecesStand self.new }
        ensures written_pieces { SamePieces self.old self.new }
        ensures given_values { (v : ℕ) → given_value self.new.names v ≡ given_value self.old.names v }
        ensures given_blocks { (b : ℕ) → given_block self.new.names b ≡ given_block self.old.names b }
        ensures outside_values { next_outside_value self.new.names ≡ next_outside_value self.old.names }
        ensures outside_blocks { next_outside_block self.new.names ≡ next_outside_block self.old.names }
    {
        self.names.close();
        self.description.put(Part::Close, self.braces.1)
    }

    /// The piece that the name of operations of this kind is, once it was written.
    pub fn operation_name(&self, kind: u32) -> Option<Span>
        ensures { result ≡ name_piece self.now kind }
    {
        self.operation_names.get(&kind).copied()
    }

    /// Writes the name of operations of this kind, in quotes.
    ///
    /// # Errors
    /// `OutOfMemory` or `TooLong`.
    pub fn write_operation_name(&mut self, kind: u32, name: &[u8]) -> Result<Span, DescribeErr>
        ensures text { OnOk result (self.new.description.text.items ≡ self.old.description.text.items ++ quoted name.now) }
        ensures span { IfOk result (λ s. s ≡ span (length self.old.description.text.items) (length self.new.description.text.items)) }
        ensures rows { self.new.description.rows ≡ self.old.description.rows }
        ensures kept { IfOk result (λ s. (k : ℕ) → name_piece self.new k ≡ (if nat_eq kind k then Some s else name_piece self.old k)) }
        ensures unkept { OnErr result ((k : ℕ) → name_piece self.new k ≡ name_piece self.old k) }
        ensures types { (k : ℕ) → type_piece self.new k ≡ type_piece self.old k }
        ensures names { self.new.names ≡ self.old.names }
        ensures front { StartsWith self.new.description.text.items self.old.description.text.items }
        // A text that gets too long has the piece.
        ensures written { IfErr result (λ e. e ≡ DescribeErr.TooLong → self.new.description.text.items ≡ self.old.description.text.items ++ quoted name.now) }
        ensures long { IfErr result (λ e. e ≡ DescribeErr.TooLong → 2 ^ 32 ≤ length self.new.description.text.items) }
        ensures error { IfErr result (λ e. (e ≡ DescribeErr.OutOfMemory) ⊎ (e ≡ DescribeErr.TooLong)) }
        ensures stand { PiecesStand self.old → PiecesStand self.new }
    {
        let start = self.description.text.len();
        write_quoted(&mut self.description.text, name)?;
        let span = self.description.piece_from(start)?;
        self.operation_names.insert(kind, span)?;
        Ok(span)
    }

    /// The piece that the type at this place is, once it was written.
    pub fn type_piece(&self, place: usize) -> Option<TypePiece>
        ensures { result ≡ type_piece self.now place }
    {
        self.types.get(&place).copied()
    }

    /// Writes the type at this place.
    ///
    /// # Errors
    /// `OutOfMemory` or `TooLong`.
    pub fn write_type(&mut self, place: usize, text: &[u8]) -> Result<TypePiece, DescribeErr>
        ensures text { OnOk result (self.new.description.text.items ≡ self.old.description.text.items ++ text.now) }
        ensures span { IfOk result (λ piece. piece.span ≡ span (length self.old.description.text.items) (length self.new.description.text.items)) }
        ensures rows { self.new.description.rows ≡ self.old.description.rows }
        ensures kept { IfOk result (λ piece. (k : ℕ) → type_piece self.new k ≡ (if nat_eq place k then Some piece else type_piece self.old k)) }
        ensures unkept { OnErr result ((k : ℕ) → type_piece self.new k ≡ type_piece self.old k) }
        ensures operation_names { (k : ℕ) → name_piece self.new k ≡ name_piece self.old k }
        ensures names { self.new.names ≡ self.old.names }
        ensures front { StartsWith self.new.description.text.items self.old.description.text.items }
        // Either the text of the type is too long, or the whole text with it.
        ensures long { IfErr result (λ e. e ≡ DescribeErr.TooLong → (2 ^ 32 ≤ length text.now) ⊎ (2 ^ 32 ≤ length self.new.description.text.items)) }
        ensures error { IfErr result (λ e. (e ≡ DescribeErr.OutOfMemory) ⊎ (e ≡ DescribeErr.TooLong)) }
        ensures stand { PiecesStand self.old → PiecesStand self.new }
    {
        let is_bare = is_bare_type(self.alloc, text)?;
        let span = self.description.write(text)?;
        let piece = TypePiece { span, is_bare };
        self.types.insert(place, piece)?;
        Ok(piece)
    }

    /// Puts the type of the one result of an operation: in no parentheses, where it can stand so.
    ///
    /// # Errors
    /// `OutOfMemory`.
    pub fn put_only_result_type(&mut self, piece: TypePiece) -> Result<(), DescribeErr>
        ensures row { OnOk result (self.new.description.rows.items ≡ self.old.description.rows.items ++ row (if piece.is_bare then Part.OnlyResultType else Part.ResultType) piece.span ∷ []) }
        ensures kept { OnErr result (self.new.description.rows.items ≡ self.old.description.rows.items) }
        ensures text { self.new.description.text ≡ self.old.description.text }
        ensures names { self.new.names ≡ self.old.names }
        ensures error { IfErr result (λ e. e ≡ DescribeErr.OutOfMemory) }
        ensures stand { PiecesStand self.old → PiecesStand self.new }
        ensures written_pieces { SamePieces self.old self.new }
    {
        let part = if piece.is_bare {
            Part::OnlyResultType
        } else {
            Part::ResultType
        };
        self.description.put(part, piece.span)
    }

    /// Puts the key of an attribute, in quotes where it needs them.
    ///
    /// # Errors
    /// `OutOfMemory` or `TooLong`.
    pub fn put_key(&mut self, key: &[u8]) -> Result<(), DescribeErr>
        ensures text { OnOk result (self.new.description.text.items ≡ self.old.description.text.items ++ key_text key.now) }
        ensures row { OnOk result (self.new.description.rows.items ≡ self.old.description.rows.items ++ row Part.Key (span (length self.old.description.text.items) (length self.new.description.text.items)) ∷ []) }
        ensures kept { OnErr result (self.new.description.rows.items ≡ self.old.description.rows.items) }
        ensures names { self.new.names ≡ self.old.names }
        ensures front { StartsWith self.new.description.text.items self.old.description.text.items }
        // A text that gets too long has the key.
        ensures written { IfErr result (λ e. e ≡ DescribeErr.TooLong → self.new.description.text.items ≡ self.old.description.text.items ++ key_text key.now) }
        ensures long { IfErr result (λ e. e ≡ DescribeErr.TooLong → 2 ^ 32 ≤ length self.new.description.text.items) }
        ensures error { IfErr result (λ e. (e ≡ DescribeErr.OutOfMemory) ⊎ (e ≡ DescribeErr.TooLong)) }
        ensures stand { PiecesStand self.old → PiecesStand self.new }
        ensures written_pieces { SamePieces self.old self.new }
    {
        let start = self.description.text.len();
        write_key(&mut self.description.text, key)?;
        let span = self.description.piece_from(start)?;
        self.description.put(Part::Key, span)
    }
}
