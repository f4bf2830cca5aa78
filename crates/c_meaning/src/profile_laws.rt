//! Laws of the two profiles, and of the first undefined operation.
ghost use Rattle.std.specs.Prelude.{◌≡◌, ℕ, ◌+ℤ◌, ◌-ℤ◌, ◌*ℤ◌, Some};
ghost use Rattle.el_base.specs.declared.span.Span.{Span};
ghost use Rattle.c_ast.specs.declared.tree.Binary.TheVariants as binary;
ghost use Rattle.c_ast.specs.declared.typed.Typed.{Typed};
ghost use Rattle.c_meaning.specs.declared.profile.Profile.{Profile};
ghost use Rattle.c_meaning.specs.Stores.{Inputs};
ghost use Rattle.c_meaning.specs.Runs.{undefined};
ghost use Rattle.c_meaning.specs.Statements.{kernel_run, first};
ghost use Rattle.c_meaning.specs.Profiles.{WrapKeepsValues, WrapKeepsStatements, WrapKeepsNormalStatements, WrapKeepsEnds, WrapKeepsNormalEnds, WrapsTo, NegativesWrap, ShiftsWrap};

use el_base::numbers_are_those_of_their_patterns;

/// What has a value or ends under `Plain` has the same value or ends in the same way under `Wrap`, with the same turns.
pub fn wrapping_keeps_ends()
    ensures values { WrapKeepsValues }
    ensures statements { WrapKeepsStatements }
    ensures kernels { WrapKeepsEnds }
    ensures normal_statements { WrapKeepsNormalStatements }
    ensures normal_forms { WrapKeepsNormalEnds }
{
    numbers_are_those_of_their_patterns();
}

/// Under `Wrap` a result of `+ - *`, unary `-` or `<<` is always there: the number in range that is congruent to the exact one.
pub fn wrapped_results_are_congruent()
    ensures sums { WrapsTo binary.Add (λ x y. x +ℤ y) }
    ensures differences { WrapsTo binary.Sub (λ x y. x -ℤ y) }
    ensures products { WrapsTo binary.Mul (λ x y. x *ℤ y) }
    ensures negatives { NegativesWrap }
    ensures shifts { ShiftsWrap }
{}

/// The first undefined operation within some turns is at a place exactly where the run ends undefined there.
pub fn first_is_where_it_ends_undefined()
    ensures named { (k : Typed) (p : Profile) (i : Inputs) (n : ℕ) (at : Span)
        → first k p i n ≡ Some at → (kernel_run k p i n).how ≡ undefined at }
    ensures every { (k : Typed) (p : Profile) (i : Inputs) (n : ℕ) (at : Span)
        → (kernel_run k p i n).how ≡ undefined at → first k p i n ≡ Some at }
{}
