//! Laws of documents and of what a harvest reads. Each function's contract is a law.
ghost use Rattle.std.specs.Prelude.{◌≡◌, ◌≤◌, ◌<◌, ◌↔◌, ℕ, Bool, true, false, List, Contains, Ok, Err};
ghost use Rattle.std.specs.Prelude.{Some, None, length, map};
ghost use Rattle.std.specs.List.Sorted.{IsStrictlySortedBy};
ghost use Rattle.ntriples.specs.Document.{IsDocument, IsFirstBadLine};
ghost use Rattle.ntriples.specs.declared.term.Term.{Term};
ghost use Rattle.ntriples.specs.declared.term.Triple.{Triple};
ghost use Rattle.dcat_map.specs.Graphs.{graph_of, is_described};
ghost use Rattle.dcat_map.specs.Listings.{AreUnnamed, IsCatalogue, IsListed};
ghost use Rattle.dcat_map.specs.Records.{description_of};
ghost use Rattle.dcat_map.specs.Terms.{text_cmp};
ghost use Rattle.harvest_results.specs.Readings.{CatalogueReading, ListedIri};
ghost use Rattle.harvest_results.specs.Readings.CatalogueReading.{Broken};
ghost use Rattle.harvest_sources.specs.declared.cause.Cause.{Cause};
ghost use Rattle.harvest_sources.specs.declared.reading.Reading.TheVariants.{Bad};
ghost use Rattle.harvest_sources.specs.declared.source.HarvestSource.{HarvestSource};
ghost use Rattle.harvest_readings.specs.Catalogues.{reading_by};
ghost use Rattle.harvest_readings.specs.Documents.{triples_in};
ghost use Rattle.harvest_readings.specs.Harvests.{Documents, IsRead, catalogue_at, catalogue_reading};
ghost use Rattle.harvest_readings.specs.Harvests.{graph_at, has_failed_catalogue, has_failed_object};
ghost use Rattle.harvest_readings.specs.Harvests.{object_at};

use dcat_map::laws::{
    a_described_iri_is_of_the_set, a_listing_counts_what_has_no_name,
    a_listing_has_what_catalogues_list,
};
use harvest_sources::Cause;
use ntriples::laws::{
    a_line_has_a_triple_exactly_where_it_is_of_the_form,
    a_line_is_bad_exactly_where_it_is_of_no_form, bytes_are_a_document_or_have_a_bad_line,
};

/// What is read of a document are its triples, or the number of its first bad line, by the grammar of
/// N-Triples.
pub fn a_document_is_read_by_the_grammar()
    ensures document { (bytes : List ℕ) (triples : List Triple) →
        (triples_in bytes ≡ Ok triples) ↔ IsDocument bytes triples }
    ensures bad { (bytes : List ℕ) (number : ℕ) →
        (triples_in bytes ≡ Err (Cause.NotNTriples number)) ↔ IsFirstBadLine bytes number }
{
    a_line_has_a_triple_exactly_where_it_is_of_the_form();
    a_line_is_bad_exactly_where_it_is_of_no_form();
    bytes_are_a_document_or_have_a_bad_line();
}

/// What a location gives: no graph where the fetch failed, where no document is there, where it has more than
/// 64 MiB, or where a line of it is none of N-Triples, and otherwise the graph of its triples.
pub fn a_location_gives_a_graph_or_its_cause()
    ensures failed { (documents : Documents) (location : List ℕ) →
        graph_at documents true location ≡ Err Cause.ReadFault }
    ensures missing { (documents : Documents) (location : List ℕ) → documents location ≡ None →
        graph_at documents false location ≡ Err Cause.Missing }
    ensures long { (documents : Documents) (location bytes : List ℕ) → documents location ≡ Some bytes →
        67108864 < length bytes → graph_at documents false location ≡ Err Cause.TooLong }
    ensures bad { (documents : Documents) (location bytes : List ℕ) (number : ℕ) →
        documents location ≡ Some bytes → length bytes ≤ 67108864 → IsFirstBadLine bytes number →
        graph_at documents false location ≡ Err (Cause.NotNTriples number) }
    ensures graph { (documents : Documents) (location bytes : List ℕ) (triples : List Triple) →
        documents location ≡ Some bytes → length bytes ≤ 67108864 → IsDocument bytes triples →
        graph_at documents false location ≡ Ok (graph_of triples) }
{
    a_document_is_read_by_the_grammar();
}

/// What was read tells whether the fetch failed.
pub fn a_failed_fetch_shows_in_what_was_read()
    ensures catalogue { (documents : Documents) (failed : Bool) (url : List ℕ) →
        has_failed_catalogue (catalogue_at documents failed url) ≡ failed }
    ensures object { (documents : Documents) (failed : Bool) (iri : List ℕ) →
        has_failed_object (object_at documents failed iri) ≡ failed }
{}

/// A catalogue is read with exactly the IRIs that it lists by dcat:dataset, each once and ascending by bytes,
/// and with the count of the objects that it lists and that are no IRIs.
pub fn a_harvest_reads_what_the_catalogue_lists()
    ensures listed { (source : HarvestSource) (documents : Documents) (has_failed : List ℕ → Bool)
        (triples : List Triple) (items : List ListedIri) (unnamed : ℕ) (iri : List ℕ) →
        IsRead source documents has_failed triples items unnamed →
        Contains (map (λ item. item.iri) items) iri ↔ IsListed triples iri }
    ensures ascending { (source : HarvestSource) (documents : Documents) (has_failed : List ℕ → Bool)
        (triples : List Triple) (items : List ListedIri) (unnamed : ℕ) →
        IsRead source documents has_failed triples items unnamed →
        IsStrictlySortedBy text_cmp (map (λ item. item.iri) items) }
    ensures unnamed { (source : HarvestSource) (documents : Documents) (has_failed : List ℕ → Bool)
        (triples : List Triple) (items : List ListedIri) (unnamed : ℕ) →
        IsRead source documents has_failed triples items unnamed →
        (objects : List Term) × AreUnnamed triples objects × (unnamed ≡ length objects) }
{
    a_document_is_read_by_the_grammar();
    a_listing_has_what_catalogues_list();
    a_listing_counts_what_has_no_name();
}

/// A catalogue is broken by the cause for which its location gives no graph, or by `NoCatalog` where no
/// triple says that there is a dcat:Catalog.
pub fn a_catalogue_is_broken_by_its_cause()
    ensures graph { (source : HarvestSource) (documents : Documents) (failed : Bool)
        (has_failed : List ℕ → Bool) (cause : Cause) → graph_at documents failed source.url ≡ Err cause →
        catalogue_reading source documents failed has_failed ≡ Broken cause }
    ensures catalogue { (source : HarvestSource) (documents : Documents) (has_failed : List ℕ → Bool)
        (bytes : List ℕ) (triples : List Triple) →
        documents source.url ≡ Some bytes → length bytes ≤ 67108864 → IsDocument bytes triples →
        ((subject : Term) → IsCatalogue triples subject → ⊥) →
        catalogue_reading source documents false has_failed ≡ Broken Cause.NoCatalog }
{
    a_document_is_read_by_the_grammar();
    a_listing_counts_what_has_no_name();
}

/// A listed dataset is read in the catalogue's document where that describes it, and otherwise in the
/// document at its IRI.
pub fn a_listed_dataset_is_read_where_it_is_described()
    ensures here { (source : HarvestSource) (documents : Documents) (has_failed : List ℕ → Bool)
        (triples : List Triple) (items : List ListedIri) (unnamed : ℕ) (item : ListedIri) →
        IsRead source documents has_failed triples items unnamed → Contains items item →
        is_described triples item.iri ≡ true →
        item.reading ≡ reading_by (description_of triples item.iri) }
    ensures elsewhere { (source : HarvestSource) (documents : Documents) (has_failed : List ℕ → Bool)
        (triples : List Triple) (items : List ListedIri) (unnamed : ℕ) (item : ListedIri) →
        IsRead source documents has_failed triples items unnamed → Contains items item →
        is_described triples item.iri ≡ false →
        item.reading ≡ object_at documents (has_failed item.iri) item.iri }
{
    a_document_is_read_by_the_grammar();
    a_described_iri_is_of_the_set();
}

/// The document at a dataset's IRI is read by its triples, and where the location gives no graph, the reading
/// is bad for the same cause.
pub fn a_dataset_is_read_by_the_triples_at_its_iri()
    ensures triples { (documents : Documents) (iri bytes : List ℕ) (triples : List Triple) →
        documents iri ≡ Some bytes → length bytes ≤ 67108864 → IsDocument bytes triples →
        object_at documents false iri ≡ reading_by (description_of triples iri) }
    ensures graph { (documents : Documents) (failed : Bool) (iri : List ℕ) (cause : Cause) →
        graph_at documents failed iri ≡ Err cause → object_at documents failed iri ≡ Bad cause }
{
    a_document_is_read_by_the_grammar();
}
