//! Laws of normal forms: each is the contract of a function that does nothing.
ghost use Rattle.std.specs.Prelude.{◌≤◌, ℕ, length};
ghost use Rattle.el_base.specs.Limits.{max_nodes};
ghost use Rattle.c_ast.specs.declared.typed.Typed.{Typed};
ghost use Rattle.c_ast.specs.Nodes.{typed_nodes};
ghost use Rattle.c_meaning.specs.Lawful.{Lawful, LawfulNormal};
ghost use Rattle.c_meaning.specs.Sizes.{Sizes, form_sizes};
ghost use Rattle.c_norm.specs.Kernels.{normal_form};
ghost use Rattle.c_norm.specs.Shares.{EndsAlike, NormalShare, NormalSizes, SmallSizes};

use c_meaning::range_laws::numbers_stay_in_range;

/// Under either profile, where a lawful kernel ends within some turns, its normal form ends with the same arrays and the
/// same result, with at most two jumps for each turn, and a price of at most 13 for each node of the kernel, once for
/// each turn and once more.
pub fn normal_forms_end_alike()
    ensures { (k : Typed) → Lawful k → EndsAlike k (normal_form k) }
{
    numbers_stay_in_range();
}

/// The normal form of a lawful kernel is lawful.
pub fn normal_forms_are_lawful()
    ensures { (k : Typed) → Lawful k → LawfulNormal (normal_form k) }
{}

/// The normal form of a lawful kernel has at least two variables less than the kernel has nodes, at most four blocks for
/// each node, less four for each variable, at most 13 steps for each node, and at most one access for each.
pub fn normal_forms_are_small()
    ensures { (k : Typed) → Lawful k
        → NormalSizes (typed_nodes k) (length (normal_form k).vars) (form_sizes (normal_form k)) }
{}

/// The sizes of the normal form of a kernel of at most `MAX_NODES` nodes are such that its graph can be built: at most
/// 32,768 blocks, a size of at most 8,000,000 and at most 1,024 accesses in one block.
pub fn small_forms_can_be_built()
    ensures { (n v : ℕ) (z : Sizes) → n ≤ max_nodes → NormalSizes n v z → SmallSizes v z }
{}

/// The normal form of a lawful kernel keeps its header, is lawful, has few variables and ends as the kernel does.
pub fn normal_forms_share()
    ensures { (k : Typed) → Lawful k → NormalShare k (normal_form k) }
{
    normal_forms_are_lawful();
    normal_forms_are_small();
    normal_forms_end_alike();
}
