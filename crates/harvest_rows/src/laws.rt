//! Laws of the rows of harvest sources and jobs. Each law is the contract of a function with an empty body.
ghost use Rattle.std.specs.Prelude.{◌≡◌, IsTrue, List};
ghost use Rattle.harvest_sources.specs.Jobs.{in_state, is_running};
ghost use Rattle.harvest_sources.specs.declared.job.Job.{Job};
ghost use Rattle.harvest_sources.specs.declared.job.JobState.TheVariants.{New};
ghost use Rattle.harvest_sources.specs.declared.source.HarvestSource.{HarvestSource};
ghost use Rattle.portal_keeper.specs.Rows.{AreInOrder};
ghost use Rattle.portal_keeper.specs.declared.row.KeptRow.{KeptRow};
ghost use Rattle.harvest_rows.specs.KeptHarvests.{AreHarvestRows, AreKeptHarvests, rows_of_harvests};
ghost use Rattle.harvest_rows.specs.Rows.{IsJobRow, IsSourceRow, job_row};
ghost use Rattle.harvest_rows.specs.declared.kept_harvests.KeptHarvests.{KeptHarvests};

/// No two sources have the same row.
pub fn a_row_is_of_one_source()
    ensures { (row : KeptRow) (one other : HarvestSource) → IsSourceRow one row → IsSourceRow other row →
        one ≡ other }
{}

/// No two jobs that aren't running have the same row.
pub fn a_row_is_of_one_job()
    ensures { (row : KeptRow) (one other : Job) → IsJobRow one row → IsJobRow other row → one ≡ other }
{}

/// The row of a running job is that of the same job as a new one, which has done nothing.
pub fn a_running_job_is_kept_as_a_new_one()
    ensures { (job : Job) → IsTrue (is_running job) → job_row job ≡ job_row (in_state New job) }
{}

/// The rows of values that have rows are in the order of a store, so that no two of them have the same kind and key.
pub fn rows_of_harvests_are_in_order()
    ensures { (kept : KeptHarvests) → AreKeptHarvests kept → AreInOrder (rows_of_harvests kept) }
{}

/// No two values have the same rows.
pub fn harvest_rows_are_of_one_value()
    ensures { (one other : KeptHarvests) (rows : List KeptRow) → AreHarvestRows one rows →
        AreHarvestRows other rows → one ≡ other }
{}
