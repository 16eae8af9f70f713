// A job, run to the publication of its sinks. The store alone is touched.
ghost use Rattle.std.specs.Prelude.{◌≡◌, ◌≢◌, reverse, IfOk, IfErr, OnOk};
ghost use Rattle.tez_plan.specs.Faults.{IsValid};
ghost use Rattle.tez_ports.specs.Content.{Told};
ghost use Rattle.tez_sinks.specs.Sinks.{TasksWereStaged};
ghost use Rattle.tez_world.specs.Lawful.{IsTrace};
ghost use Rattle.tez_am.specs.Call.{stored_of};
ghost use Rattle.tez_am.specs.Answer.{TellsSinks};
ghost use Rattle.tez_am.specs.Drive.{ComesTo};
ghost use Rattle.tez_am.specs.Publish.{Publishes, RunCause};
ghost use Rattle.tez_am.specs.Run.{HasText};
ghost use Rattle.tez_am.specs.Say.{status_of};

use crate::answer::answer;
use crate::drive::drive;
use crate::failure::Failure;
use crate::status::Status;
use std::alloc::{AllocError, Global};
use tez_conf::Conf;
use tez_events::Trace;
use tez_ids::Bytes;
use tez_meaning::Job;
use tez_ports::OutputStore;
use tez_world::{Device, JobRun, Mode, Verdict};

/// What the end of a run comes to.
fn finish(alloc: Global, job: &Job, ended: Result<Verdict, AllocError>) -> Result<Bytes, Failure>
    ensures { ComesTo job.now ended result }
{
    match ended {
        Ok(verdict) => answer(alloc, job, verdict),
        Err(_) => Err(Failure::Because(Status::NoMemory)),
    }
}

/// Runs a job, and gives the text that says that its sinks are published. Afterwards the log has the
/// trace of the run.
pub fn run<S: OutputStore>(
    alloc: Global,
    job: Job,
    conf: Conf,
    store: &mut S,
    log: &mut Trace,
) -> Result<Bytes, Failure>
    requires valid { IsValid job.plan }
    // Where the store tells nothing, the records and bytes that the text has are as the store counted them.
    ensures text { IfOk result (TellsSinks (S.store store.new) job) }
    ensures published { OnOk result (Publishes job (stored_of S.store S.faults S.stops store.old store.new)) }
    ensures cause { IfErr result
        (λ f. RunCause job (stored_of S.store S.faults S.stops store.old store.new) (status_of f)) }
    ensures trace { IsTrace job conf (reverse log.new.entries) }
    ensures staged { OnOk result
        (Told (S.store store.new) (λ s. TasksWereStaged job (reverse log.new.entries) s.stage_calls)) }
    ensures failure_text { IfErr result (HasText job) }
    ensures lent { S.lent store.new ≡ S.lent store.old }
    ensures sure { S.is_sure store.old → IfErr result (λ f. status_of f ≢ Status.DeviceFault Device.Store) }
{
    let mut run = JobRun::open(alloc, job, conf, Mode::Run);
    let ended = drive(alloc, &mut run, store);
    run.publishes_in_order();
    run.is_lawful();
    let answered = finish(alloc, run.job(), ended);
    *log = run.into_trace();
    answered
}
