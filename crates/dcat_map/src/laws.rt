//! Laws of listings and records: functions with an empty body, whose contracts are the laws.
ghost use Rattle.std.specs.Prelude.{◌≡◌, ◌≢◌, ◌↔◌, ℕ, ℤ, ◌<ℤ◌, ◌==◌, true, false, List, [], ◌∷◌, ◌++◌, length};
ghost use Rattle.std.specs.Prelude.{Some, None};
ghost use Rattle.std.specs.List.{Contains, list_any};
ghost use Rattle.std.specs.List.Sorted.{IsStrictlySortedBy};
ghost use Rattle.std.specs.Ordering.{flip_args, int_cmp};
ghost use Rattle.std.specs.declared.cmp.Ordering.TheVariants.{Less};
ghost use Rattle.ntriples.specs.declared.term.Term.{Term};
ghost use Rattle.ntriples.specs.declared.term.Triple.{Triple};
ghost use Rattle.dcat_map.specs.declared.listing.Listing.{Listing};
ghost use Rattle.dcat_map.specs.Sets.{HaveSameItems, least};
ghost use Rattle.dcat_map.specs.Instants.{instant, IsInstant};
ghost use Rattle.dcat_map.specs.Graphs.{graph_of, about, is_described, IsObject};
ghost use Rattle.dcat_map.specs.Listings.{listing_of, IsListed, IsCatalogue, AreUnnamed};
ghost use Rattle.dcat_map.specs.Picks.{is_filled, pick, picked, IsPick};
ghost use Rattle.dcat_map.specs.Terms.{term_cmp, text_cmp, text_of};
ghost use Rattle.dcat_map.specs.Records.{description_of};
ghost use Rattle.dcat_map.specs.Distributions.{last_part};

/// Lists of triples with the same members are of one graph, whatever their order and their repeats.
pub fn lists_of_a_set_are_one_graph()
    ensures { (g h : List Triple) → HaveSameItems g h → graph_of g ≡ graph_of h }
{}

/// The listing is a function of the set of triples.
pub fn a_listing_is_of_the_set()
    ensures { (g h : List Triple) → HaveSameItems g h → listing_of g ≡ listing_of h }
{}

/// Whether an IRI is described is a function of the set of triples, and a graph describes what its triples do.
pub fn a_described_iri_is_of_the_set()
    ensures lists { (g h : List Triple) (iri : List ℕ) → HaveSameItems g h → is_described g iri ≡ is_described h iri }
    ensures graph { (triples : List Triple) (iri : List ℕ) →
        is_described (graph_of triples) iri ≡ is_described triples iri }
{}

/// The record of an IRI, or why there is none, is a function of the set of triples.
pub fn a_record_is_of_the_set()
    ensures { (g h : List Triple) (iri : List ℕ) → HaveSameItems g h → description_of g iri ≡ description_of h iri }
{}

/// The IRIs of a listing strictly ascend by bytes, and an IRI is among them exactly where some catalogue of the
/// triples has it as an object of dcat:dataset.
pub fn a_listing_has_what_catalogues_list()
    ensures ascending { (triples : List Triple) (listing : Listing) → listing_of triples ≡ Some listing →
        IsStrictlySortedBy text_cmp listing.iris }
    ensures listed { (triples : List Triple) (listing : Listing) (iri : List ℕ) → listing_of triples ≡ Some listing →
        Contains listing.iris iri ↔ IsListed triples iri }
{}

/// A listing counts the entries of catalogues that are no IRIs, each once; and there is no listing exactly where the
/// triples say of no subject that it is a catalogue.
pub fn a_listing_counts_what_has_no_name()
    ensures unnamed { (triples : List Triple) (listing : Listing) → listing_of triples ≡ Some listing →
        (objects : List Term) × AreUnnamed triples objects × (listing.unnamed ≡ length objects) }
    ensures none { (triples : List Triple) →
        (listing_of triples ≡ None) ↔ ((subject : Term) → IsCatalogue triples subject → ⊥) }
{}

/// The pick is the literal that isn't empty and comes before all others, and there is none exactly where no object is
/// such a literal.
pub fn the_pick_comes_before_all_others()
    ensures pick { (triples : List Triple) (subject : Term) (predicate : List ℕ) (literal : Term) →
        (pick (about (graph_of triples) subject predicate) ≡ Some literal) ↔
        IsPick triples subject predicate literal }
    ensures none { (triples : List Triple) (subject : Term) (predicate : List ℕ) →
        (pick (about (graph_of triples) subject predicate) ≡ None) ↔
        ((object : Term) → IsObject triples subject predicate object → is_filled object ≡ false) }
{}

/// Where a literal of the triples isn't empty, and no other one about the same is before it, its text is picked. Where
/// there is no such literal, nothing is picked.
pub fn the_first_literal_is_picked()
    ensures first { (triples : List Triple) (subject : Term) (predicate : List ℕ) (object : Term) →
        IsObject triples subject predicate object → is_filled object ≡ true →
        ((other : Term) → IsObject triples subject predicate other → is_filled other ≡ true →
        term_cmp other object ≢ Less) →
        picked (about (graph_of triples) subject predicate) ≡ text_of object }
    ensures none { (triples : List Triple) (subject : Term) (predicate : List ℕ) →
        ((object : Term) → IsObject triples subject predicate object → is_filled object ≡ false) →
        picked (about (graph_of triples) subject predicate) ≡ [] }
{}

/// The least text is the one below which there is none, and the latest moment the one after which there is none.
pub fn the_least_has_none_below()
    ensures text { (texts : List (List ℕ)) (least_text : List ℕ) → Contains texts least_text →
        ((other : List ℕ) → Contains texts other → text_cmp other least_text ≢ Less) →
        least text_cmp texts ≡ Some least_text }
    ensures moment { (moments : List ℤ) (last : ℤ) → Contains moments last →
        ((other : ℤ) → Contains moments other → ¬ (last <ℤ other)) →
        least (flip_args int_cmp) moments ≡ Some last }
{}

/// A text gives a moment exactly where it is a date, or a date and a time, of that moment.
pub fn a_text_gives_a_moment_exactly_where_it_is_of_the_form()
    ensures { (text : List ℕ) (moment : ℤ) → (instant text ≡ Some moment) ↔ IsInstant text moment }
{}

/// The last part of an IRI is what follows its last `/` or `#`, or all of it where it has neither.
pub fn the_last_part_follows_the_last_mark()
    ensures slash { (front rest : List ℕ) → list_any (λ c. c == 47) rest ≡ false →
        list_any (λ c. c == 35) rest ≡ false → last_part (front ++ 47 ∷ rest) ≡ rest }
    ensures number_sign { (front rest : List ℕ) → list_any (λ c. c == 47) rest ≡ false →
        list_any (λ c. c == 35) rest ≡ false → last_part (front ++ 35 ∷ rest) ≡ rest }
    ensures none { (iri : List ℕ) → list_any (λ c. c == 47) iri ≡ false → list_any (λ c. c == 35) iri ≡ false →
        last_part iri ≡ iri }
{}
