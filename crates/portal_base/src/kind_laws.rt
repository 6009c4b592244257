//! Laws of the values of keys. Each law is the contract of a function with an empty body.
ghost use Rattle.std.specs.Prelude.{◌≡◌, ◌<◌, ◌^◌, ◌∷◌, ◌++◌, [], ℕ, List, true, false, codes, Some, pos, neg_ℤ};
ghost use Rattle.std.specs.Fmt.{decimal};
ghost use Rattle.std.specs.List.{join_with_byte, list_all, slice_split};
ghost use Rattle.portal_base.specs.Kinds.{is_blank, is_comma, trimmed, whole_spelled};

/// The parts of a text, joined by commas, are the text.
pub fn parts_join_to_the_text()
    ensures { (text : List ℕ) → join_with_byte 44 (slice_split is_comma text) ≡ text }
{}

/// A trimmed part is what is left without the spaces and tabs around it. It neither begins nor ends with one.
pub fn parts_are_trimmed()
    ensures around { (text : List ℕ) → (before : List ℕ) × ((after : List ℕ) ×
        (text ≡ before ++ (trimmed text ++ after)) ×
        (list_all is_blank before ≡ true) × (list_all is_blank after ≡ true)) }
    ensures start { (text : List ℕ) (c : ℕ) (rest : List ℕ) → trimmed text ≡ c ∷ rest → is_blank c ≡ false }
    ensures end { (text : List ℕ) (front : List ℕ) (c : ℕ) → trimmed text ≡ front ++ c ∷ [] → is_blank c ≡ false }
{}

/// The decimal digits of a number below 10^18 are read as the number, and `-` before them as its negative.
pub fn numbers_are_read_back()
    ensures unsigned { (n : ℕ) → n < 10 ^ 18 → whole_spelled (decimal n) ≡ Some (pos n) }
    ensures negative { (n : ℕ) → n < 10 ^ 18 → whole_spelled (codes "-" ++ decimal n) ≡ Some (neg_ℤ (pos n)) }
{}
