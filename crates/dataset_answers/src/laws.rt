//! Laws of the answers. Each function has an empty body, and its contract is the law.
ghost use Rattle.std.specs.Prelude.{List};
ghost use Rattle.portal_calls.specs.Answer.{AcceptsOnly, AcceptsNothing};
ghost use Rattle.portal_calls.specs.declared.topic.DatasetAction.{DatasetAction};
ghost use Rattle.visibility.specs.TableSummary.{TableSummary};
ghost use Rattle.visibility.specs.CallView.{CallView};
ghost use Rattle.dataset_answers.specs.Answers.{answer_to_action, answer_to_package_list, answer_to_package_show};
ghost use Rattle.dataset_answers.specs.Answers.{answer_to_resource_show};
ghost use Rattle.dataset_answers.specs.Fit.{IsFitDataset};

/// The changes that the answers accept can be made, and the caller has the right to make them. A new dataset is sound,
/// and the caller may edit it. A dataset that is replaced is in the caller's view, and the caller may edit it. No table
/// that stays refers to a table that a replacement removes. A dataset that is removed is in the view of the caller, who
/// is a sysadmin, and wasn't harvested.
pub fn what_is_accepted_is_fit()
    ensures { (action : DatasetAction) (view : CallView) (summaries : List TableSummary) →
        AcceptsOnly (IsFitDataset view summaries) (answer_to_action action view summaries) }
{}

/// The answers to reads accept no change.
pub fn a_reading_accepts_nothing()
    ensures package_show { (view : CallView) (summaries : List TableSummary) → AcceptsNothing (answer_to_package_show view summaries) }
    ensures package_list { (view : CallView) → AcceptsNothing (answer_to_package_list view) }
    ensures resource_show { (view : CallView) (summaries : List TableSummary) → AcceptsNothing (answer_to_resource_show view summaries) }
{}
