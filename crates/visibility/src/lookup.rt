//! The thing that a key of a call's body names, in its caller's view.
ghost use Rattle.std.specs.Prelude.{◌<◌, IfOk, length};
ghost use Rattle.packages.specs.LocatedResource.{located_now};
ghost use Rattle.portal_calls.specs.Stop.{Finds};
ghost use Rattle.visibility.specs.CallView.{context_view};
ghost use Rattle.visibility.specs.Lookup.{resource_at};

use crate::context::CallContext;
use packages::named::LocatedResource;
use portal_calls::answer::{Denial, Kind, key_denial, required_text};
use portal_calls::stop::Stop;
use std::alloc::Global;

/// The resource that a key of the body names. A key that names none stops the call with its refusal.
pub fn resource_at<'a>(
    alloc: Global,
    context: &CallContext<'a>,
    key: &'static str,
) -> Result<LocatedResource<'a>, Stop>
    ensures found { Finds result located_now (resource_at key.now (context_view context.now)) }
    ensures within { IfOk result (λ located. located.position < length located.dataset.now.resources) }
{
    match required_text(&context.call.request.body, key) {
        Ok(address) => match context.viewer.resource(address.as_str()) {
            Some(located) => Ok(located),
            None => Err(Stop::Refused(Denial::NotFound(Kind::Resource))),
        },
        Err(fault) => Err(Stop::Refused(key_denial(alloc, key, fault)?)),
    }
}
