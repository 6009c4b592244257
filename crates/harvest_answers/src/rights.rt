//! Who may create a source.
ghost use Rattle.std.specs.Prelude.{◌≡◌};
ghost use Rattle.std.specs.List.{list_any};
ghost use Rattle.std.specs.Option.{option_copied};
ghost use Rattle.visibility.specs.CallView.{context_view};
ghost use Rattle.visibility.specs.View.{administers};
ghost use Rattle.harvest_answers.specs.Answers.{may_create_source};
ghost use Rattle.harvest_answers.specs.Bodies.{organization_given};
ghost use Rattle.harvest_answers.specs.View.{administers_somewhere};

use org_roles::entry::Org;
use packages::texts::text_given;
use visibility::context::CallContext;

/// The organization that the body gives, if it exists.
fn organization_given<'a>(context: &CallContext<'a>) -> Option<&'a Org>
    ensures { option_copied result
        ≡ organization_given (context_view context.now).people context.now.call.now.request.body }
{
    match text_given(&context.call.request.body, "owner_org") {
        Some(name) => context.viewer.org(name),
        None => None,
    }
}

/// Whether the caller administers the organization.
fn administers(context: &CallContext<'_>, org: &Org) -> bool
    ensures { result ≡ administers (context_view context.now).people context.now.viewer.caller org.now.name }
{
    context.viewer.administers(&org.name)
}

/// Whether the caller administers one of the organizations.
fn administers_any(context: &CallContext<'_>, orgs: &[Org]) -> bool
    ensures { result
        ≡ list_any (λ org. administers (context_view context.now).people context.now.viewer.caller org.name) orgs.now }
{
    orgs.iter().any(|org| administers(context, org))
}

/// Whether the caller is a sysadmin, or administers some organization.
fn administers_somewhere(context: &CallContext<'_>) -> bool
    ensures { result ≡ administers_somewhere (context_view context.now).people context.now.viewer.caller }
{
    context.viewer.is_sysadmin() || administers_any(context, context.viewer.orgs())
}

/// Whether the caller may create the source that the body describes: it has to administer the organization
/// that the body gives, and where that doesn't exist, any.
pub fn may_create_source(context: &CallContext<'_>) -> bool
    ensures { result ≡ may_create_source (context_view context.now) }
{
    match organization_given(context) {
        Some(org) => administers(context, org),
        None => administers_somewhere(context),
    }
}
