//! Laws of documents and their texts: functions with an empty body, whose contracts are the laws.
ghost use Rattle.std.specs.Prelude.{◌≡◌, ◌⊎◌, ◌↔◌, ℕ, List, All, Option};
ghost use Rattle.ntriples.specs.declared.term.Triple.{Triple};
ghost use Rattle.ntriples.specs.Document.{IsLineOf, IsDocument, IsFirstBadLine};
ghost use Rattle.ntriples.specs.ParsedLines.{line_of};
ghost use Rattle.ntriples.specs.Written.{CanBeRead, document_text};

/// Reading a line from the left finds its triple, or that it has none, exactly where the line is of that form.
pub fn a_line_has_a_triple_exactly_where_it_is_of_the_form()
    ensures { (bytes : List ℕ) (triple : Option Triple) → (line_of bytes ≡ Some triple) ↔ IsLineOf bytes triple }
{}

/// Reading a line from the left finds it bad exactly where it is of no form.
pub fn a_line_is_bad_exactly_where_it_is_of_no_form()
    ensures { (bytes : List ℕ) →
        (line_of bytes ≡ None) ↔ ((triple : Option Triple) → IsLineOf bytes triple → ⊥) }
{}

/// What is written of triples that can be read is a document of them.
pub fn what_is_written_reads_back()
    ensures { (triples : List Triple) → All CanBeRead triples → IsDocument (document_text triples) triples }
{}

/// No bytes are a document of two lists of triples.
pub fn a_document_has_one_reading()
    ensures { (bytes : List ℕ) (first second : List Triple) →
        IsDocument bytes first → IsDocument bytes second → first ≡ second }
{}

/// A document has no bad line.
pub fn a_document_has_no_bad_line()
    ensures { (bytes : List ℕ) (triples : List Triple) (number : ℕ) →
        IsDocument bytes triples → IsFirstBadLine bytes number → ⊥ }
{}

/// No bytes have two first bad lines.
pub fn the_first_bad_line_is_one()
    ensures { (bytes : List ℕ) (first second : ℕ) →
        IsFirstBadLine bytes first → IsFirstBadLine bytes second → first ≡ second }
{}

/// Bytes that are no document have a first bad line.
pub fn bytes_are_a_document_or_have_a_bad_line()
    ensures { (bytes : List ℕ) →
        ((triples : List Triple) × IsDocument bytes triples) ⊎ ((number : ℕ) × IsFirstBadLine bytes number) }
{}
