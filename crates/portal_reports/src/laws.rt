//! Laws of the definitions: functions with an empty body, whose contracts are the laws.
ghost use Rattle.std.specs.Prelude.{◌≡◌, List, filter, length, sum_by};
ghost use Rattle.std.specs.List.{AllByRecursion};
ghost use Rattle.std.specs.Str.{bytes_eq};
ghost use Rattle.org_roles.specs.declared.entry.Org.{Org};
ghost use Rattle.packages.specs.declared.package.Package.{Package};
ghost use Rattle.portal_reports.specs.Datasets.{count_in, is_in};
ghost use Rattle.portal_reports.specs.declared.datasets.Column.{Column};

/// Where exactly one of the organizations has the name of each dataset's owner, the line of all organizations counts each
/// dataset once.
pub fn the_total_counts_each_dataset_once()
    ensures { (orgs : List Org) (datasets : List Package) (column : Column) →
        AllByRecursion (λ (d : Package). length (filter (λ (o : Org). bytes_eq d.owner_org o.name) orgs) ≡ 1) datasets →
        sum_by (λ (o : Org). count_in datasets o.name column) orgs ≡ length (filter (is_in column) datasets) }
{}
