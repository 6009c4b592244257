//! Laws of what a harvest leaves. Each function has an empty body, and its contract is the law.
ghost use Rattle.std.specs.Prelude.{◌≡◌, ◌≢◌, ◌↔◌, ◌⊎◌, ℕ, ◌+◌, List, length, All, Contains, IfSome, IsTrue, None, find};
ghost use Rattle.std.specs.declared.cmp.Ordering.TheVariants.{Less};
ghost use Rattle.std.specs.Ordering.{nat_cmp};
ghost use Rattle.std.specs.Cmp.Lexicographic.{slice_cmp};
ghost use Rattle.std.specs.Str.{bytes_eq};
ghost use Rattle.portal_base.specs.Ordered.{IsAscending};
ghost use Rattle.packages.specs.Order.{dataset_cmp};
ghost use Rattle.packages.specs.declared.package.Package.{Package};
ghost use Rattle.harvest_results.specs.Counts.{counts_of};
ghost use Rattle.harvest_results.specs.Equality.{equal_datasets};
ghost use Rattle.harvest_results.specs.Readings.{CatalogueReading, ListedIri, is_listed, is_whole, iri_cmp, item_name};
ghost use Rattle.harvest_results.specs.Readings.{least_named};
ghost use Rattle.harvest_results.specs.Readings.CatalogueReading.{Broken, Listed};
ghost use Rattle.harvest_results.specs.Results.{IsOwn, IsRead, dataset_left, datasets_after, datasets_afresh};
ghost use Rattle.harvest_sources.specs.declared.cause.Cause.{Cause};
ghost use Rattle.harvest_sources.specs.declared.source.HarvestSource.{HarvestSource};

/// A whole reading leaves the same datasets, whatever was there before.
pub fn a_whole_reading_leaves_the_same_datasets()
    ensures { (old : List Package) (reading : CatalogueReading) → IsTrue (is_whole reading) →
        datasets_after old reading ≡ datasets_afresh reading }
{}

/// A reading without a catalogue leaves the datasets that were there.
pub fn a_broken_reading_leaves_what_was_there()
    ensures { (old : List Package) (cause : Cause) → datasets_after old (Broken cause) ≡ old }
{}

/// An IRI that isn't listed leaves no dataset.
pub fn an_unlisted_iri_leaves_no_dataset()
    ensures { (old : List Package) (source : HarvestSource) (items : List ListedIri) (unnamed : ℕ) →
        All (λ d. IsTrue (is_listed items d.iri)) (datasets_after old (Listed source items unnamed)) }
{}

/// A dataset that is left is that of a listed IRI's record, or was there before.
pub fn what_is_left_was_read_or_was_there()
    ensures { (old : List Package) (source : HarvestSource) (items : List ListedIri) (unnamed : ℕ) →
        All (λ d. IsRead source items d ⊎ Contains old d) (datasets_after old (Listed source items unnamed)) }
{}

/// Of the listed IRIs whose datasets have one name the least counts.
pub fn the_least_iri_of_a_name_counts()
    ensures found { (source : HarvestSource) (items : List ListedIri) (name : List ℕ) →
        IfSome (least_named source items name) (λ item. Contains items item × (item_name source item ≡ name)) }
    ensures least { (source : HarvestSource) (items : List ListedIri) (name : List ℕ) →
        IfSome (least_named source items name) (λ item.
        All (λ other. item_name source other ≡ name → iri_cmp other item ≢ Less) items) }
    ensures none { (source : HarvestSource) (items : List ListedIri) (name : List ℕ) →
        least_named source items name ≡ None → All (λ other. item_name source other ≢ name) items }
{}

/// A source's own datasets stay its own, and ascend by id.
pub fn datasets_stay_the_sources_own()
    ensures own { (old : List Package) (source : HarvestSource) (items : List ListedIri) (unnamed : ℕ) →
        All (IsOwn source) old → All (IsOwn source) (datasets_after old (Listed source items unnamed)) }
    ensures ascend { (old : List Package) (source : HarvestSource) (items : List ListedIri) (unnamed : ℕ) →
        All (IsOwn source) old → IsAscending dataset_cmp (datasets_after old (Listed source items unnamed)) }
{}

/// The datasets that a listing leaves strictly ascend by name, so that no name repeats.
pub fn datasets_ascend_by_name()
    ensures { (old : List Package) (source : HarvestSource) (items : List ListedIri) (unnamed : ℕ) →
        IsAscending (λ d e. slice_cmp nat_cmp d.name e.name) (datasets_after old (Listed source items unnamed)) }
{}

/// The dataset of each name is what the definition says of that name alone, and no other list that ascends by name has
/// these datasets.
pub fn each_name_has_its_dataset()
    ensures only { (old : List Package) (source : HarvestSource) (items : List ListedIri) (unnamed : ℕ)
        (datasets : List Package) → IsAscending (λ d e. slice_cmp nat_cmp d.name e.name) datasets →
        ((name : List ℕ) → find (λ d. bytes_eq d.name name) datasets ≡ dataset_left old source items name) →
        datasets ≡ datasets_after old (Listed source items unnamed) }
    ensures found { (old : List Package) (source : HarvestSource) (items : List ListedIri) (unnamed : ℕ) (name : List ℕ) →
        find (λ d. bytes_eq d.name name) (datasets_after old (Listed source items unnamed))
        ≡ dataset_left old source items name }
{}

/// The same reading again changes nothing, and nothing is counted as a change.
pub fn the_same_reading_again_changes_nothing()
    ensures added { (old : List Package) (reading : CatalogueReading) →
        (counts_of (datasets_after old reading) reading).added ≡ 0 }
    ensures updated { (old : List Package) (reading : CatalogueReading) →
        (counts_of (datasets_after old reading) reading).updated ≡ 0 }
    ensures deleted { (old : List Package) (reading : CatalogueReading) →
        (counts_of (datasets_after old reading) reading).deleted ≡ 0 }
    ensures datasets { (old : List Package) (reading : CatalogueReading) →
        datasets_after (datasets_after old reading) reading ≡ datasets_after old reading }
{}

/// What is added and what is deleted make up the change of the count of datasets.
pub fn added_and_deleted_make_up_the_change()
    ensures { (old : List Package) (reading : CatalogueReading) →
        IsAscending (λ d e. slice_cmp nat_cmp d.name e.name) old →
        (counts_of old reading).added + length old
        ≡ length (datasets_after old reading) + (counts_of old reading).deleted }
{}

/// Two datasets are equal exactly where the test by fields says so.
pub fn datasets_are_equal_exactly_where_their_fields_are()
    ensures { (d e : Package) → IsTrue (equal_datasets d e) ↔ (d ≡ e) }
{}
