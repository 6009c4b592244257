//! A call and the state that it reads.
use crate::viewer::Viewer;
use portal_calls::answer::Quota;
use portal_calls::call::Call;

/// A call, its caller as a viewer, and whether the call's quota is used up.
#[derive(Drop)]
pub struct CallContext<'a> {
    pub call: &'a Call,
    pub viewer: Viewer<'a>,
    pub quota: Quota,
}
