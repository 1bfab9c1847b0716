//! Lists of records in a grammar.
ghost use Rattle.std.specs.Prelude.{◌≡◌, ◌≢◌, ◌<◌, ℕ, Bool, List, ◌∷◌, ◌++◌, length, slice_index, slice_index_or};
ghost use Rattle.journal.specs.Records.{journal_list, taken};
ghost use Rattle.journal.specs.Ready.{GoesOn};
ghost use Rattle.journal.specs.Grammar.{in_grammar};

/// A law, for a caller whose records have a grammar: where another record follows, its gate is open; so where the byte
/// behind the records up to the first outside the grammar isn't 1, there is no such record, and a journal goes on
/// there.
pub fn a_shut_gate_ends_the_list()
    ensures open { (bytes : List ℕ) (ps : List (List ℕ)) (q : List ℕ) (qs : List (List ℕ))
        → journal_list bytes ≡ ps ++ q ∷ qs → slice_index bytes (taken ps) ≡ 1 }
    ensures whole { (spells : List ℕ → Bool) (bytes : List ℕ)
        → slice_index_or bytes (taken (in_grammar spells (journal_list bytes))) 1 ≢ 1
        → in_grammar spells (journal_list bytes) ≡ journal_list bytes }
    ensures goes_on { (spells : List ℕ → Bool) (bytes : List ℕ)
        → taken (in_grammar spells (journal_list bytes)) < length bytes
        → slice_index_or bytes (taken (in_grammar spells (journal_list bytes))) 1 ≢ 1
        → GoesOn (taken (in_grammar spells (journal_list bytes))) bytes }
{}
