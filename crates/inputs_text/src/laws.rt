//! The laws of texts, each as a clause of a function that does nothing.
ghost use Rattle.std.specs.Prelude.{List, ℕ};
ghost use Rattle.inputs_text.specs.Texts.{IsOfOneInputs};

/// A text is that of one inputs of a header at most.
pub fn inputs_texts_have_one_reading()
    ensures { IsOfOneInputs }
{}
