//! Turns of whole kernels.
ghost use Rattle.ref_interp.specs.Turns.{KernelsNeedNoMore};

/// A kernel that is over within some turns is over in the same way within fewer, as long as those that it took are among
/// them; so a kernel that ends in so many turns ends within every bound of at least so many.
pub fn ends_need_only_their_turns()
    ensures { KernelsNeedNoMore }
{}
