//! Parameters.
#![tactic(auto, using(crate::proofs::NoResults::no_result, crate::proofs::NoResults::no_verdict))]

ghost use Rattle.std.specs.Prelude.{◌≡◌, ◌<◌, ℕ, List, [], ◌∷◌, Some, IfOk};
ghost use Rattle.el_base.specs.Limits.{max_nesting};
ghost use Rattle.c_ast.specs.declared.mark.Mark.TheVariants as mark;
ghost use Rattle.c_ast.specs.Derives.{DerivesDims, DerivesParam, DerivesParamList, DerivesParams};
ghost use Rattle.c_parse.specs.Reads.{Reads, DerivesDim, mark_at};
ghost use Rattle.c_parse.specs.Symbols.{Symbol, Fixed};
ghost use Rattle.c_parse.specs.Parts.{param_list_symbols};
ghost use Rattle.c_parse.specs.Verdicts.{Judges};

use crate::cursor::Cursor;
use crate::refusal::Stop;
use c_ast::{Key, List, Mark, Param};

impl<'a> Cursor<'a> {
    /// The parameters of a kernel, of which there may be none.
    pub fn params(&mut self) -> Result<List<Param>, Stop>
        ensures derived { IfOk result (λ ps. Reads (λ ts. DerivesParams ts ps)
            self.old.rest.now self.new.rest.now) }
        ensures judged { (n : ℕ) → n < max_nesting
            → Judges (Symbol.params n ∷ []) (Symbol.fixed n Fixed.closing ∷ [])
            self.old.rest.now self.new.rest.now result }
    {
        if self.is_at(Mark::Close) {
            return Ok(List::new(self.alloc));
        }
        if let Some(_) = self.take_key(Key::Void) {
            return Ok(List::new(self.alloc));
        }
        self.param_list()
    }

    // One or more parameters.
    fn param_list(&mut self) -> Result<List<Param>, Stop>
        ensures derived { IfOk result (λ ps. Reads (λ ts. DerivesParamList ts ps)
            self.old.rest.now self.new.rest.now) }
        ensures judged { (n : ℕ) → n < max_nesting
            → Judges (param_list_symbols n) [] self.old.rest.now self.new.rest.now result }
    {
        let mut params = List::new(self.alloc);
        let first = self.param()?;
        params.push(first)?;
        'params: while self.is_at(Mark::Comma) {
            self.mark(Mark::Comma)?;
            let more = self.param()?;
            params.push(more)?;
        }
        Ok(params)
    }

    // A parameter.
    fn param(&mut self) -> Result<Param, Stop>
        ensures derived { IfOk result (λ p. Reads (λ ts. DerivesParam ts p)
            self.old.rest.now self.new.rest.now) }
        ensures judged { (n : ℕ) → n < max_nesting
            → Judges (Symbol.a_param n ∷ []) [] self.old.rest.now self.new.rest.now result }
    {
        let ty = self.ty()?;
        let (name, at) = self.name()?;
        let dims = self.dims()?;
        Ok(Param { name, at, ty, dims })
    }

    // All dimensions that come next.
    fn dims(&mut self) -> Result<List<u64>, Stop>
        ensures derived { IfOk result (λ ds. Reads (λ ts. DerivesDims ts ds)
            self.old.rest.now self.new.rest.now) }
        ensures judged { (n : ℕ) → n < max_nesting
            → Judges (Symbol.dims n ∷ []) [] self.old.rest.now self.new.rest.now result }
    {
        let mut dims = List::new(self.alloc);
        'dims: while self.is_at(Mark::OpenBracket) {
            let dim = self.dim()?;
            dims.push(dim)?;
        }
        Ok(dims)
    }

    // A dimension in brackets.
    fn dim(&mut self) -> Result<u64, Stop>
        ensures derived { IfOk result (λ d. Reads (λ ts. DerivesDim ts d)
            self.old.rest.now self.new.rest.now) }
        ensures judged { (n : ℕ) → n < max_nesting
            → mark_at self.old.rest.now ≡ Some mark.OpenBracket
            → Judges (Symbol.dims n ∷ []) (Symbol.dims n ∷ [])
            self.old.rest.now self.new.rest.now result }
    {
        self.mark(Mark::OpenBracket)?;
        let value = self.number()?;
        self.mark(Mark::CloseBracket)?;
        Ok(value)
    }
}
