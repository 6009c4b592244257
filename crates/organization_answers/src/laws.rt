//! Laws of the answers. Each function has an empty body, and its contract is the law.
ghost use Rattle.std.specs.Prelude.{ℕ, List};
ghost use Rattle.portal_calls.specs.Answer.{AcceptsOnly, AcceptsNothing};
ghost use Rattle.portal_calls.specs.declared.topic.OrganizationAction.{OrganizationAction};
ghost use Rattle.visibility.specs.CallView.{CallView};
ghost use Rattle.organization_answers.specs.Answers.{answer_to_action, answer_to_organization_show};
ghost use Rattle.organization_answers.specs.Answers.{answer_to_member_list, answer_to_organization_list};
ghost use Rattle.organization_answers.specs.Answers.{answer_to_organization_list_for_user, answer_to_user_list};
ghost use Rattle.organization_answers.specs.Fit.{IsFitOrg};

/// The changes that the answers accept can be made, given the caller's view and the owners of the sources in it, and
/// the caller has the right to make them.
pub fn what_is_accepted_is_fit()
    ensures { (action : OrganizationAction) (view : CallView) (owners : List (List ℕ)) →
        AcceptsOnly (IsFitOrg view owners) (answer_to_action action view owners) }
{}

/// The answers to reads accept no change.
pub fn a_reading_accepts_nothing()
    ensures organization_show { (view : CallView) → AcceptsNothing (answer_to_organization_show view) }
    ensures organization_list { (view : CallView) → AcceptsNothing (answer_to_organization_list view) }
    ensures organization_list_for_user { (view : CallView) →
        AcceptsNothing (answer_to_organization_list_for_user view) }
    ensures member_list { (view : CallView) → AcceptsNothing (answer_to_member_list view) }
    ensures user_list { (view : CallView) → AcceptsNothing (answer_to_user_list view) }
{}
