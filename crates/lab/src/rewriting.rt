//! The calls of `ir_rewrite`, each by a line of text, for rows that say what each answers, what stands where afterwards, and what a rewriter notes.
//!
//! It supports tests, and promises nothing but safety: no contract says what a call answers.
//!
//! All words are for contexts alone. The program keeps a rewriter from line to line, until one takes its place or `begin` begins anew. Each of these words begins one that has noted nothing, and is answered `done`:
//!
//! - `rewriter.at_block_start BLOCK`, `rewriter.at_block_end BLOCK`, `rewriter.before_operation OP`, `rewriter.after_operation OP`: where its point is.
//!
//! The words of its calls are malformed where there is none:
//!
//! - `rewriter.insert OP`, `rewriter.move_before OP MARK`, `rewriter.move_after OP MARK`, `rewriter.erase_op OP`, `rewriter.modified OP`, and `rewriter.replace_op OP VALUES`, with commas between the values or `-` in place of none;
//! - `rewriter.noted`: `noted`, and for each change a letter and the operation, as in `i:o1`. `i` is one that was put in, `m` modified, `t` touched, `e` erased;
//! - `rewrite.may_go_at OP`, `rewrite.insert OP`: whether it may go at the rewriter's point; it is put in there by the rewriter's inserter, which moves the point on, and nothing is noted.
//!
//! These need none: `rewrite.move_before OP MARK`, `rewrite.move_after OP MARK`, `rewrite.replace_op OP VALUES` of `ir_rewrite`'s module `checked`, and `rewrite.may_move_beside OP MARK`, `rewrite.may_replace_op OP VALUES`.
//!
//! The answer is `done`, `true` or `false`, or why the call wasn't made, as the checked calls tell it.

mod changing;
mod replacing;
mod words;

pub(crate) use words::{Kept, answer};
