//! The worked kernel, from its bytes to its end, as contracts of functions that do nothing.
ghost use Rattle.kernel_bench.specs.Benches.{IsWorkedKernel, WorkedKernelEnds};

use c_ast::typed_trees_have_as_many_nodes;
use kernel_front::texts_that_type_are_kernels;

/// The bytes of the kernel spell a program of this kernel alone, which keeps the typing rules, and the typed tree is that of the tree.
pub fn kernel_is_read()
    ensures { IsWorkedKernel }
{
    typed_trees_have_as_many_nodes();
    texts_that_type_are_kernels();
}

/// The kernel ends in 3,076 turns on the inputs of each number, and the elements of h have the sum 524,800.
pub fn kernel_ends()
    ensures { WorkedKernelEnds }
{}
