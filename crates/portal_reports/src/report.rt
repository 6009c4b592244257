//! The reports on a portal.
ghost use Rattle.std.specs.Prelude.{◌≡◌, IfOk, string_bytes};
ghost use Rattle.portal_state.specs.Known.{is_known, known_caller};
ghost use Rattle.portal_state.specs.View.{view_of};
ghost use Rattle.portal_reports.specs.Report.{report_text};

use crate::datasets::datasets_text;
use crate::tables::tables_text;
use portal_base::caller::Caller;
use portal_base::text::Text;
use portal_core::portal::Portal;
use portal_keeper::keeper::Keeper;
use portal_words::ReportKind;
use std::alloc::{AllocError, Global};

/// Whether the caller is nobody, or a user of the portal.
#[tactic(auto, using(visibility::proofs::ViewLemmas::is_user_in_seen))]
fn is_known<P: Keeper>(portal: &Portal<P>, caller: &Caller) -> bool
    ensures { result ≡ is_known portal.now.state.people caller.now }
{
    match caller {
        Caller::Anonymous => true,
        Caller::Named(user) => portal.viewer(caller).has_user(user),
    }
}

/// The bytes of the report on what a known caller sees.
fn text_for<P: Keeper>(
    alloc: Global,
    portal: &Portal<P>,
    caller: &Caller,
    kind: ReportKind,
) -> Result<String, AllocError>
    ensures { IfOk result (λ text. string_bytes text
        ≡ report_text kind (view_of caller.now portal.now.state)) }
{
    let viewer = portal.viewer(caller);
    match kind {
        ReportKind::Datasets => datasets_text(alloc, &viewer),
        ReportKind::Tables => tables_text(alloc, &viewer, portal.shelf(), portal.tables()),
    }
}

/// The report of this kind on what the caller sees of the portal. A caller whom no user has is nobody.
pub fn report<P: Keeper>(
    alloc: Global,
    portal: &Portal<P>,
    caller: &Caller,
    kind: ReportKind,
) -> Result<Text, AllocError>
    ensures { IfOk result (λ text. text ≡ report_text kind
        (view_of (known_caller portal.now.state.people caller.now) portal.now.state)) }
{
    let text = if is_known(portal, caller) {
        text_for(alloc, portal, caller, kind)?
    } else {
        text_for(alloc, portal, &Caller::Anonymous, kind)?
    };
    Ok(Text::from(text))
}
