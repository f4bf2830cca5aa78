//! Reading a kernel.
ghost use Rattle.std.specs.Prelude.{◌≤◌, ℕ, List, length};
ghost use Rattle.el_base.specs.Limits.{max_kernel_bytes};
ghost use Rattle.c_ast.specs.Tokens.{span_at};
ghost use Rattle.kernel_front.specs.Places.{IsPlace};
ghost use Rattle.kernel_front.specs.Answers.{Says, IsOnly, HasOneAnswer};
ghost use Rattle.kernel_front.specs.Laws.{AloneBecomesCast, KernelsEndAsPrograms, TextsThatTypeAreKernels, TextsWithoutHelpersAreCast};

use crate::refusal::KernelRefusal;
use c_ast::Typed;
use c_calls::laws::{
    calls_are_inlined, inlined_is_lawful, inlined_nodes_are_counted, programs_are_typed_in_one_way,
    typed_programs_are_lawful,
};
use c_inline::{inline, inlined_nodes};
use c_lex::{end_of, lex, texts_have_one_reading};
use c_parse::{parse_program, programs_have_one_answer, programs_of_tokens_are_of_texts};
use c_types::{check_program, trees_are_checked_as_programs};
use std::alloc::Global;

/// A kernel that keeps all rules: its typed tree, without calls, and the number of nodes of that tree.
#[derive(Drop)]
pub struct Kernel {
    pub typed: Typed,
    pub nodes: u64,
}

/// The typed tree of the text that these bytes are, helpers and a kernel (ISO/IEC 9899:1999 6.4, 6.5, 6.7, 6.8, 6.9.1), in
/// which the helper's statements stand in place of each call.
///
/// # Errors
///
/// What the lexer refuses, else what the parser refuses, else what the type checker refuses, with its place
/// in the bytes; a text that ends too early is refused at the empty place after its last byte. Else, where the tree
/// without calls has more nodes than a kernel may have, `Inline` with the kernel's name. `Memory` where memory ran out.
pub fn read_kernel(alloc: Global, bytes: &[u8]) -> Result<Kernel, KernelRefusal>
    requires { length bytes.now ≤ max_kernel_bytes }
    ensures says { Says bytes.now result }
    ensures only { IsOnly bytes.now result }
{
    one_text_has_one_answer();
    typed_programs_are_lawful();
    inlined_nodes_are_counted();
    let tokens = lex(alloc, bytes)?;
    let end = end_of(bytes);
    let program = parse_program(alloc, tokens.as_slice(), end)?;
    let checked = check_program(alloc, &program)?;
    let typed = inline(alloc, &checked)?;
    let nodes = inlined_nodes(alloc, &checked)?;
    Ok(Kernel { typed, nodes })
}

/// Any bytes have one answer, but for want of memory: no other says what holds of them.
pub fn one_text_has_one_answer()
    ensures { (bytes : List ℕ) → HasOneAnswer bytes }
{
    texts_have_one_reading();
    programs_have_one_answer();
    programs_are_typed_in_one_way();
}

/// A text that spells a program within the limits on nesting and nodes which keeps the typing rules is a kernel, where the
/// tree without calls is within the limit on nodes too.
pub fn texts_that_type_are_kernels()
    ensures { TextsThatTypeAreKernels }
{
    typed_programs_are_lawful();
    inlined_is_lawful();
    programs_of_tokens_are_of_texts();
}

/// A kernel ends on its inputs, under each profile, exactly where the program of its text does, whose calls run each in a
/// store of its own, and with the same arrays and result.
pub fn kernels_end_as_programs()
    ensures { KernelsEndAsPrograms }
{
    typed_programs_are_lawful();
    calls_are_inlined();
    programs_of_tokens_are_of_texts();
}

/// Where a tree keeps the typing rules, the program without helpers whose kernel it is becomes the tree's typed tree. So a
/// text of a kernel alone, within the limits, is a kernel exactly where its tree keeps the rules; the kernel is then that typed tree, with
/// as many nodes as the tree has.
pub fn texts_without_helpers_are_cast()
    ensures trees { AloneBecomesCast }
    ensures texts { TextsWithoutHelpersAreCast }
{
    trees_are_checked_as_programs();
    programs_are_typed_in_one_way();
    texts_have_one_reading();
    programs_have_one_answer();
    typed_programs_are_lawful();
    inlined_is_lawful();
    programs_of_tokens_are_of_texts();
}

/// A place of some bytes of a text, the empty one after its last byte too, tells the line and the column of its first
/// byte: one more than the line feeds before it, and one more than the bytes since the last of them.
pub fn places_count_lines_and_columns()
    ensures { (bytes : List ℕ) (k n : ℕ) → IsPlace bytes (span_at bytes k n) }
{}
