//! Events that change neither places nor shelves, and call no device.
ghost use Rattle.tez_steps.specs.Holds.{parts_of, Holds};
ghost use Rattle.tez_steps.specs.Parts.{IsMasterOnly};
ghost use Rattle.tez_steps.specs.Taking.{IsQuietStep};

use crate::asking::{ask, settle};
use crate::running::Running;
use crate::verdict::Took;
use std::alloc::{AllocError, Global};
use tez_conf::Conf;
use tez_events::CoreEvent;
use tez_log::Log;
use tez_master::Handled;
use tez_meaning::Job;

/// A vertex is configured, a task is queued, or the job finishes.
pub(crate) fn take_plain(
    alloc: Global,
    job: &Job,
    conf: &Conf,
    running: &mut Running,
    log: &mut Log,
    e: CoreEvent,
) -> Result<Took, AllocError>
    requires holds { Holds job.now conf.now (parts_of running.old) log.old.past }
    requires plain { IsMasterOnly e }
    ensures { IsQuietStep job.now conf.now e running.old log.old result running.new log.new }
{
    let handled = ask(alloc, job, conf, running, log, &e)?;
    if let Handled::Ignored(why) = handled {
        return Ok(Took::Ignored(why));
    }
    settle(running, log, handled);
    Ok(Took::Changed)
}
