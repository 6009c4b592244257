//! A law of queries. The function has an empty body, and its contract is the law.
ghost use Rattle.std.specs.Prelude.{◌≡◌, ◌↔◌, ℕ, List};
ghost use Rattle.search_index.specs.Grammar.{AreItemTexts};
ghost use Rattle.search_index.specs.Reading.{item_texts};

/// Each text of a query is divided into items in one way, by the grammar.
pub fn a_query_has_one_reading()
    ensures { (text : List ℕ) (texts : List (List ℕ)) → (item_texts text ≡ texts) ↔ AreItemTexts text texts }
{}
