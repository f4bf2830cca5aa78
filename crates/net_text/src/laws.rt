//! The laws of texts, each as a clause of a function that does nothing.
ghost use Rattle.std.specs.Prelude.{List, ℕ};
ghost use Rattle.net_types.specs.declared.net.Net.{Net as Nets};
ghost use Rattle.net_text.specs.Refusals.{AnswersAreOne};
ghost use Rattle.net_text.specs.Texts.{NetText, OldText, IsOfOneNet, IsOneText};

/// In each version a text is that of one net at most, and a net has one text at most; no text is of both versions.
pub fn one_net_per_text()
    ensures net { IsOfOneNet NetText }
    ensures old_net { IsOfOneNet OldText }
    ensures text { IsOneText NetText }
    ensures old_text { IsOneText OldText }
    ensures apart { (m n : Nets) (bytes : List ℕ) → NetText m bytes → OldText n bytes → ⊥ }
{}

/// A text has one answer of the reader, want of memory aside.
pub fn net_texts_have_one_answer()
    ensures { AnswersAreOne }
{}
