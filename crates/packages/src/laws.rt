//! Laws of the datasets that are built from bodies, and of those that are restored. Each function has an empty body,
//! and its contract is the law.
ghost use Rattle.std.specs.Prelude.{◌≡◌, ◌≤◌, ◌⊎◌, ◌↔◌, ℕ, List, [], Bool, Option, Some, None, All, Any, Contains};
ghost use Rattle.std.specs.Prelude.{IfSome, IsTrue, Ok, codes};
ghost use Rattle.std.specs.List.{AllPairs};
ghost use Rattle.std.specs.Ordering.{nat_cmp};
ghost use Rattle.std.specs.Cmp.Lexicographic.{slice_cmp};
ghost use Rattle.portal_base.specs.declared.json_value.Json.{Json};
ghost use Rattle.portal_base.specs.KeyErrors.{key_error_cmp};
ghost use Rattle.portal_base.specs.Kinds.{text_at};
ghost use Rattle.portal_base.specs.Name.{is_name};
ghost use Rattle.portal_base.specs.Ordered.{IsAscending, ascending};
ghost use Rattle.packages.specs.Body.{body_errors, built_dataset};
ghost use Rattle.packages.specs.Numbered.{AreNumbered};
ghost use Rattle.packages.specs.Order.{dataset_cmp};
ghost use Rattle.packages.specs.Resources.{resource_errors};
ghost use Rattle.packages.specs.Restored.{ShareNoKey, have_unique_keys};
ghost use Rattle.packages.specs.Tags.{text_set};
ghost use Rattle.packages.specs.Texts.{longest_name};
ghost use Rattle.packages.specs.declared.package.Package.{Package};

/// A new dataset that is built from a faultless body has the name that the body gives. The name has the form of names.
pub fn a_new_dataset_has_a_name()
    ensures given { (body : Json) (whole : Bool) → body_errors body None ≡ [] →
        text_at (codes "name") body ≡ Ok (Some (built_dataset body None whole).name) }
    ensures form { (body : Json) (whole : Bool) → body_errors body None ≡ [] →
        IsTrue (is_name (built_dataset body None whole).name longest_name) }
{}

/// A new dataset that is built from a faultless body has the organization that the body gives.
pub fn a_new_dataset_has_an_organization()
    ensures { (body : Json) (whole : Bool) → body_errors body None ≡ [] →
        text_at (codes "owner_org") body ≡ Ok (Some (built_dataset body None whole).owner_org) }
{}

/// A new dataset that is built from a body has no harvest source.
pub fn a_new_dataset_has_no_source()
    ensures source { (body : Json) (whole : Bool) → (built_dataset body None whole).source ≡ [] }
    ensures iri { (body : Json) (whole : Bool) → (built_dataset body None whole).iri ≡ [] }
{}

/// The resources of a dataset that is built from a faultless body have distinct numbers, at least 1 and below the next
/// number.
pub fn built_resources_are_numbered()
    ensures { (body : Json) (old : Option Package) (whole : Bool) → body_errors body old ≡ [] →
        IfSome old AreNumbered → AreNumbered (built_dataset body old whole) }
{}

/// No number is used again: a number below the old next number is that of a resource of the old dataset.
pub fn numbers_are_not_used_again()
    ensures kept { (body : Json) (old : Package) (whole : Bool) →
        All (λ r. (old.next_resource ≤ r.number) ⊎ Any (λ s. s.number ≡ r.number) old.resources)
        (built_dataset body (Some old) whole).resources }
    ensures next { (body : Json) (old : Package) (whole : Bool) →
        old.next_resource ≤ (built_dataset body (Some old) whole).next_resource }
{}

/// Tags strictly ascend by bytes, so that none repeats.
pub fn built_tags_ascend()
    ensures { (body : Json) (old : Option Package) (whole : Bool) →
        IfSome old (λ dataset. IsAscending (slice_cmp nat_cmp) dataset.tags) →
        IsAscending (slice_cmp nat_cmp) (built_dataset body old whole).tags }
{}

/// The set of some texts strictly ascends and has exactly these texts.
pub fn a_set_has_its_texts()
    ensures ascends { (texts : List (List ℕ)) → IsAscending (slice_cmp nat_cmp) (text_set texts) }
    ensures same { (texts : List (List ℕ)) (text : List ℕ) → Contains (text_set texts) text ↔ Contains texts text }
{}

/// The fields that no body sets stay as they are.
pub fn what_no_body_says_stays()
    ensures id { (body : Json) (old : Package) (whole : Bool) → (built_dataset body (Some old) whole).id ≡ old.id }
    ensures name { (body : Json) (old : Package) (whole : Bool) →
        (built_dataset body (Some old) whole).name ≡ old.name }
    ensures org { (body : Json) (old : Package) (whole : Bool) →
        (built_dataset body (Some old) whole).owner_org ≡ old.owner_org }
    ensures creator { (body : Json) (old : Package) (whole : Bool) →
        (built_dataset body (Some old) whole).creator ≡ old.creator }
    ensures created { (body : Json) (old : Package) (whole : Bool) →
        (built_dataset body (Some old) whole).created ≡ old.created }
    ensures modified { (body : Json) (old : Package) (whole : Bool) →
        (built_dataset body (Some old) whole).modified ≡ old.modified }
    ensures source { (body : Json) (old : Package) (whole : Bool) →
        (built_dataset body (Some old) whole).source ≡ old.source }
    ensures iri { (body : Json) (old : Package) (whole : Bool) → (built_dataset body (Some old) whole).iri ≡ old.iri }
{}

/// Faulty keys strictly ascend by bytes, so that each has one message.
pub fn faulty_keys_ascend()
    ensures dataset { (body : Json) (old : Option Package) → IsAscending key_error_cmp (body_errors body old) }
    ensures resource { (body : Json) → IsAscending key_error_cmp (resource_errors body) }
{}

/// Datasets have unique keys exactly where no text is the id or the name of two of them.
pub fn keys_are_unique_exactly_where_no_two_datasets_share_one()
    ensures { (datasets : List Package) → IsTrue (have_unique_keys datasets) ↔ AllPairs ShareNoKey datasets }
{}

/// Datasets that ascend by id have unique keys if no two have one name and no dataset's name is the id of another, so
/// that the shelf of a valid state can be restored. The shelf has them as they are.
pub fn datasets_of_a_valid_state_are_restored_as_they_are()
    ensures unique { (datasets : List Package) → IsAscending dataset_cmp datasets →
        ((d e : Package) → Contains datasets d → Contains datasets e → d.name ≡ e.name → d ≡ e) →
        ((d e : Package) → Contains datasets d → Contains datasets e → d.name ≡ e.id → d ≡ e) →
        IsTrue (have_unique_keys datasets) }
    ensures same { (datasets : List Package) → IsAscending dataset_cmp datasets →
        ascending dataset_cmp datasets ≡ datasets }
{}

/// Restored datasets strictly ascend by id, and are the given ones.
pub fn restored_datasets_ascend()
    ensures ascends { (datasets : List Package) → IsTrue (have_unique_keys datasets) →
        IsAscending dataset_cmp (ascending dataset_cmp datasets) }
    ensures same { (datasets : List Package) (dataset : Package) →
        Contains (ascending dataset_cmp datasets) dataset ↔ Contains datasets dataset }
{}
