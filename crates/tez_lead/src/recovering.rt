//! What a new master takes over from those before it: the tasks of vertices, then the failures of
//! tasks, and then the winners that are kept.
ghost use Rattle.std.specs.Prelude.{◌≡◌, OnOk, OnErr, IfSome};
ghost use Rattle.tez_master_model.specs.Vertices.{AreRestorable};
ghost use Rattle.tez_master_model.specs.Recovery.{stood, carried, kept, all_stood, all_carried, all_kept, going_on, committed, found, CanStand, CanBeCarried, CanBeKept, AllCanStand, AllCanBeCarried, AllCanBeKept, CanGoOn, CanBeFound};

use crate::changes::refresh;
use crate::parts::Lead;
use std::alloc::{AllocError, Global};
use tez_core::Kept;
use tez_ids::{TaskId, VertexId};
use tez_standing::{Phase, Standing};
use tez_vman::Config;

impl Lead {
    /// What a master finds when it begins. Takes all memory that it needs for the tasks of vertices, and
    /// the places stay as they are.
    pub(crate) fn find(
        &mut self,
        alloc: Global,
        s: &Standing,
        kept: &[Kept],
    ) -> Result<(), AllocError>
        requires limits { AreRestorable self.old.conf self.old.vertices }
        requires can { CanBeFound self.old s.now kept.now }
        ensures found { OnOk result (self.new ≡ found self.old s.now kept.now) }
        ensures places { self.new.pool ≡ self.old.pool }
    {
        match &s.phase {
            Phase::Running => self.go_on(alloc, s, kept),
            Phase::CommitStarted { sums: _, published } => {
                self.go_on(alloc, s, kept)?;
                self.take_up(*published);
                Ok(())
            }
            Phase::Finished(_) => {
                self.finish();
                Ok(())
            }
        }
    }

    // No task changes.
    fn take_up(&mut self, recorded: u32)
        ensures { self.new ≡ committed self.old recorded }
    {
        self.core.take_up(recorded);
    }

    fn go_on(&mut self, alloc: Global, s: &Standing, kept: &[Kept]) -> Result<(), AllocError>
        requires limits { AreRestorable self.old.conf self.old.vertices }
        requires can { CanGoOn self.old s.now kept.now }
        ensures found { OnOk result (self.new ≡ going_on self.old s.now kept.now) }
        ensures places { self.new.pool ≡ self.old.pool }
    {
        self.stand_all(alloc, s.configured.as_slice())?;
        self.carry_all(s.failures.as_slice());
        self.keep_all(kept);
        Ok(())
    }

    fn stand_all(
        &mut self,
        alloc: Global,
        configured: &[(VertexId, u32, u32)],
    ) -> Result<(), AllocError>
        requires limits { AreRestorable self.old.conf self.old.vertices }
        requires can { AllCanStand self.old configured.now }
        ensures stood { OnOk result (self.new ≡ all_stood self.old configured.now) }
        ensures limits { OnOk result (AreRestorable self.new.conf self.new.vertices) }
        ensures places { self.new.pool ≡ self.old.pool }
    {
        let _some = self.core.max_failed();
        for x in configured {
            self.stand(alloc, *x)?;
        }
        Ok(())
    }

    fn stand(&mut self, alloc: Global, x: (VertexId, u32, u32)) -> Result<(), AllocError>
        requires { CanStand self.old x }
        ensures stood { OnOk result (self.new ≡ stood self.old x) }
        ensures refused { OnErr result (self.new ≡ self.old) }
    {
        let (tasks, base) = (x.1, x.2);
        self.core.stand(alloc, x.0, Config { tasks, base })?;
        Ok(())
    }

    fn carry_all(&mut self, failures: &[(TaskId, u64)])
        requires limits { AreRestorable self.old.conf self.old.vertices }
        requires can { AllCanBeCarried self.old failures.now }
        ensures carried { self.new ≡ all_carried self.old failures.now }
        ensures places { self.new.pool ≡ self.old.pool }
    {
        for x in failures {
            self.carry(x.0, x.1);
        }
    }

    fn carry(&mut self, t: TaskId, failures: u64)
        requires limits { AreRestorable self.old.conf self.old.vertices }
        requires can { CanBeCarried self.old (t, failures) }
        ensures { self.new ≡ carried self.old (t, failures) }
    {
        let _most = self.core.max_failed();
        if self.core.tasks_of(t.vertex) <= t.index {
            return;
        }
        self.carry_there(t, failures as u32);
    }

    fn carry_there(&mut self, t: TaskId, failures: u32)
        requires { CanBeCarried self.old (t, failures) }
        ensures { self.new ≡ carried self.old (t, failures) }
    {
        self.core.carry(t, failures);
        refresh(&self.core, &mut self.queue, t);
    }

    fn keep_all(&mut self, kept: &[Kept])
        requires { AllCanBeKept self.old kept.now }
        ensures kept { self.new ≡ all_kept self.old kept.now }
        ensures places { self.new.pool ≡ self.old.pool }
    {
        for k in kept {
            self.keep(k);
        }
    }

    fn keep(&mut self, k: &Kept)
        requires { CanBeKept self.old k.now }
        ensures { self.new ≡ kept self.old k.now }
    {
        self.core.keep(k);
        refresh(&self.core, &mut self.queue, k.attempt().task);
    }
}
