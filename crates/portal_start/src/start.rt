//! What a run begins with: what the default portal, or that of a portal file, is opened with.
ghost use Rattle.std.specs.Prelude.{◌≡◌, ◌⊎◌, ◌++◌, ◌≤◌, codes, length, Some, None, Ok, IsTrue, IfOk, IfErr};
ghost use Rattle.org_roles.specs.Distinct.{have_distinct_names, have_distinct_org_names, have_distinct_pairs};
ghost use Rattle.portal_state.specs.Opened.{is_opening};
ghost use Rattle.portal_file.specs.Opening.{are_in_orgs, are_named};
ghost use Rattle.portal_file.specs.Rules.{rule_name};
ghost use Rattle.portal_start.specs.Start.{Begins, FailsToBegin, IsFileOf, RejectsFile, beginning_with};
ghost use Rattle.portal_start.specs.Start.{beginning_of_file};
ghost use Rattle.portal_status.specs.Fetch.{fetch_trace};
ghost use Rattle.portal_start.specs.Start.{default_beginning};
ghost use Rattle.portal_start.specs.Fetchers.{UsesFirst, first_fetch};

use portal_base::outside::Fetcher;
use portal_base::text::Text;
use portal_core::portal::Opening;
use portal_file::{FileFault, FileRule, PortalFile};
use portal_links::tokens::Tokens;
use portal_serve::defaults::{default_opening, default_tokens};
use portal_status::fetch::fetch_file;
use portal_status::status::{Status, concat};
use std::alloc::{AllocError, Global};

/// What a portal is opened with, and the tokens of its users.
#[derive(Drop)]
pub struct Start {
    pub opening: Opening,
    pub tokens: Tokens,
}

/// The default portal.
fn default_start(alloc: Global) -> Result<Start, AllocError>
    ensures beginning { IfOk result (λ start. beginning_with start.opening start.tokens ≡ default_beginning) }
    ensures opening { IfOk result (λ start. IsTrue (is_opening start.opening)) }
{
    let opening = default_opening(alloc)?;
    let tokens = default_tokens(alloc)?;
    Ok(Start { opening, tokens })
}

/// The portal of a portal file.
fn start_of_portal_file(file: PortalFile) -> Start
    requires users { IsTrue (have_distinct_names file.users) }
    requires orgs { IsTrue (have_distinct_org_names file.orgs) }
    requires pairs { IsTrue (have_distinct_pairs file.roles) }
    requires named { IsTrue (are_named file.orgs) }
    requires in_orgs { IsTrue (are_in_orgs file.orgs file.roles) }
    ensures beginning { beginning_with result.opening result.tokens ≡ beginning_of_file file }
    ensures opening { IsTrue (is_opening result.opening) }
{
    let PortalFile {
        users,
        orgs,
        roles,
        tokens,
    } = file;
    Start {
        opening: Opening { users, orgs, roles },
        tokens: Tokens::new(tokens),
    }
}

/// The status for a portal file that breaks this rule.
fn broken_rule(alloc: Global, rule: FileRule) -> Status
    ensures { (result ≡ Status.OutOfMemory) ⊎ (result ≡ Status.PortalFile (codes "portal file: " ++ rule_name rule)) }
{
    match concat(alloc, "portal file: ", rule.name()) {
        Ok(text) => Status::PortalFile(text),
        Err(_refused) => Status::OutOfMemory,
    }
}

/// The portal of a portal file with these bytes.
fn start_of_bytes(alloc: Global, bytes: &[u8]) -> Result<Start, Status>
    ensures file { IfOk result (λ start. IsFileOf bytes.now (beginning_with start.opening start.tokens)) }
    ensures opening { IfOk result (λ start. IsTrue (is_opening start.opening)) }
    ensures broken { IfErr result (RejectsFile bytes.now) }
{
    match PortalFile::read(alloc, bytes) {
        Ok(file) => Ok(start_of_portal_file(file)),
        Err(FileFault::Rule(rule)) => Err(broken_rule(alloc, rule)),
        Err(FileFault::OutOfMemory) => Err(Status::OutOfMemory),
    }
}

/// The portal of the portal file at the location.
fn start_of_file<F: Fetcher>(
    alloc: Global,
    fetcher: &mut F,
    location: &str,
) -> Result<Start, Status>
    ensures begins { IfOk result (λ start.
        Begins (fetch_trace (F.held fetcher.old) (F.faults fetcher.old) (F.faults fetcher.new)) (Some location.now)
        (beginning_with start.opening start.tokens)) }
    ensures opening { IfOk result (λ start. IsTrue (is_opening start.opening)) }
    ensures fails { IfErr result (FailsToBegin
        (fetch_trace (F.held fetcher.old) (F.faults fetcher.old) (F.faults fetcher.new)) (Some location.now)) }
    ensures held { F.held fetcher.new ≡ F.held fetcher.old }
    ensures counts { F.faults fetcher.old ≤ F.faults fetcher.new }
{
    let bytes = fetch_file(alloc, fetcher, location)?;
    start_of_bytes(alloc, bytes.as_slice())
}

/// What a run begins with: the portal of the portal file at the location, or the default portal if no location is
/// given. If the file can't be fetched or breaks a rule, the status says so.
pub fn start_of<F: Fetcher>(
    alloc: Global,
    fetcher: &mut F,
    portal: &Option<Text>,
) -> Result<Start, Status>
    ensures begins { IfOk result (λ start.
        Begins (fetch_trace (F.held fetcher.old) (F.faults fetcher.old) (F.faults fetcher.new)) portal.now
        (beginning_with start.opening start.tokens)) }
    ensures opening { IfOk result (λ start. IsTrue (is_opening start.opening)) }
    ensures fails { IfErr result (FailsToBegin
        (fetch_trace (F.held fetcher.old) (F.faults fetcher.old) (F.faults fetcher.new)) portal.now) }
    ensures held { F.held fetcher.new ≡ F.held fetcher.old }
    ensures counts { F.faults fetcher.old ≤ F.faults fetcher.new }
    ensures no_file { portal.now ≡ None → fetcher.new ≡ fetcher.old }
{
    match portal {
        Some(location) => start_of_file(alloc, fetcher, location.as_str()),
        None => Ok(default_start(alloc)?),
    }
}

/// What a run begins with, as by `start_of`, with the first of its fetchers.
pub fn start_with<F: Fetcher>(
    alloc: Global,
    fetchers: &mut Vec<F>,
    portal: &Option<Text>,
) -> Result<Start, Status>
    requires { 1 ≤ length fetchers.old.items }
    ensures begins { IfOk result (λ start.
        Begins (first_fetch F.held F.faults fetchers.old.items fetchers.new.items) portal.now
        (beginning_with start.opening start.tokens)) }
    ensures opening { IfOk result (λ start. IsTrue (is_opening start.opening)) }
    ensures fails { IfErr result (FailsToBegin
        (first_fetch F.held F.faults fetchers.old.items fetchers.new.items) portal.now) }
    ensures fetchers { UsesFirst F.held F.faults portal.now fetchers.old.items fetchers.new.items }
{
    start_of(alloc, &mut fetchers[0], portal)
}
