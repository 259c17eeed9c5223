//! Laws of the definitions, which no program calls.
ghost use Rattle.std.specs.Prelude.{◌≡◌, ℕ, [], List, false};
ghost use Rattle.std.specs.List.{AllByRecursion as Each};
ghost use Rattle.prt_addr.specs.Word.{is_one_of};
ghost use Rattle.prt_import.specs.Naming.{pieces, table_words, with_names};
ghost use Rattle.prt_import.specs.TableNames.{TableNames};
ghost use Rattle.prt_import.specs.declared.naming.Text.{Text};

/// With no names a text stays as it was.
pub fn keeps_without_names()
    ensures { (form : Text) (text : List ℕ) → with_names form [] text ≡ text }
{}

/// A text of whose pieces none is a word that a table follows stays as it was.
pub fn keeps_without_tables()
    ensures { (form : Text) (names : TableNames) (text : List ℕ) →
        Each (λ piece. is_one_of piece.word (table_words form) ≡ false) (pieces form text) → with_names form names text ≡ text }
{}
