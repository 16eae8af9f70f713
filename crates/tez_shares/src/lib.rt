//! What the tasks of a vertex make: allowed configurations, the share of each task, and the law
//! that the tasks of a vertex make together what the vertex makes.
#![tactic(auto)]

mod lines;

ghost use Rattle.std.specs.Prelude.{◌≡◌, ◌<◌, ℕ, List, count_by, length, IsTrue, IsFalse};
ghost use Rattle.std.specs.List.{flat_map, range_with_len};
ghost use Rattle.tez_record.specs.Bag.{sort};
ghost use Rattle.tez_plan.specs.Dag.{Dag};
ghost use Rattle.tez_plan.specs.Faults.{IsValid};
ghost use Rattle.tez_plan.specs.Ranges.{IsInRanges};
ghost use Rattle.tez_shrink.specs.Formulas as formulas;
ghost use Rattle.tez_meaning.specs.Jobs.{Job};
ghost use Rattle.tez_meaning.specs.Value.{value, IsDefined};
ghost use Rattle.tez_shares.specs.Shares.{Config, HasTasks, IsAllowed, SharesMakeWhole, share_of_lines, in_share, task_value, task_value_from, task_bad, tasks_in};

pub use lines::{lines_of_task, shares_of_lines};

/// The tasks of a vertex make together what the vertex makes, under each allowed configuration,
/// and some task meets a bad record exactly where the vertex does.
pub fn tasks_make_the_whole()
    ensures { (job : Job) (c : ℕ → Config) (v : ℕ) → IsValid job.plan → HasTasks job.plan → IsAllowed job.plan c → v < length job.plan.vertices → SharesMakeWhole job c v }
{}

/// Where a job has a meaning, no task meets a bad record.
pub fn defined_jobs_have_good_tasks()
    ensures { (job : Job) (c : ℕ → Config) (v t : ℕ) → IsValid job.plan → HasTasks job.plan → IsAllowed job.plan c → v < length job.plan.vertices → t < (c v).tasks → IsDefined job → IsFalse (task_bad job c v t) }
{}

/// What a task makes is what its program makes of its shares.
pub fn task_values_come_from_shares()
    ensures { (job : Job) (c : ℕ → Config) (v : ℕ) → IsValid job.plan → v < length job.plan.vertices → task_value job c v ≡ task_value_from job c v (task_value job c) }
{}

/// The shares of a source are its lines, each once and in order, and each record of a partition is
/// in the share of exactly one task.
pub fn shares_are_disjoint_and_whole()
    ensures lines { (rs : List (List ℕ)) (tasks : ℕ) → 0 < tasks → flat_map (share_of_lines rs tasks) (range_with_len 0 tasks) ≡ rs }
    ensures keys { (cols : List ℕ) (parts base : ℕ) (r : List ℕ) → 0 < base → 0 < parts → count_by (λ t. in_share cols parts base t r) (range_with_len 0 (formulas.tasks_of parts base)) ≡ 1 }
{}

/// Each vertex of a plan in its ranges has tasks.
pub fn plans_have_tasks()
    ensures { (p : Dag) → IsInRanges p → HasTasks p }
{}
