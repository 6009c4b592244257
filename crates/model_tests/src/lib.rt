//! Tests of what nothing above calls yet. They stand above org_roles, portal_keeper, dataset_rows and portal_rows, so that
//! these are proved once. Everything else of org_roles and of packages is tested by `portal_cases`.
#![tactic(auto)]

#[cfg(test)]
mod keeper;
#[cfg(test)]
mod people;
#[cfg(test)]
mod rows;
#[cfg(test)]
mod table_rows;
