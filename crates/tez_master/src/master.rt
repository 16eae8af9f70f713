//! The master, and its answers.
ghost use Rattle.std.specs.Prelude.{◌≡◌, ◌⊎◌, ◌∷◌, [], not, true, false, if◌then◌else◌, map, Some, None, IsOk, IfOk, IfErr, OnOk, OnErr};
ghost use Rattle.tez_events.specs.declared.CoreEvent.{CoreEvent};
ghost use Rattle.tez_history.specs.Steps.{done_entries, asked_entries};
ghost use Rattle.tez_pool.specs.Victim.{AreIn};
ghost use Rattle.tez_master_model.specs.Recovery.{found, CanBeFound};
ghost use Rattle.tez_master_model.specs.Fresh.{fresh};
ghost use Rattle.tez_master_model.specs.Read.{processes};
ghost use Rattle.tez_master_model.specs.declared.why.Why.{Why};
ghost use Rattle.tez_master_model.specs.Enabled.{enabled_in, may_ask, why_in, why_not};
ghost use Rattle.tez_master_model.specs.Entries.{entries_in};
ghost use Rattle.tez_master_model.specs.Bytes.{bytes_of};
ghost use Rattle.tez_lead.specs.Found.{HasVersion};
ghost use Rattle.tez_entries.specs.Ranges.{CanTell};
ghost use Rattle.tez_entries.specs.Records.{records_of};
ghost use Rattle.tez_master.specs.Master.{Took, Reported, Asked, is_single, is_ignored, is_single_answer, IsIgnoredFor, entries_told, records_told, spent_told, ordered_told, ordered_in, spent_in, HasNumbers};

use crate::answers::{effects, prepare, success, why_ignored};
use crate::handled::{Effects, Handled};
use crate::pending::Pending;
use crate::single::{asked, single};
use std::alloc::{AllocError, Global};
use std::marker::Model;
use tez_conf::Conf;
use tez_core::Kept;
use tez_entries::records;
use tez_events::CoreEvent;
use tez_ids::{AttemptId, EdgeId, Epoch, VertexId};
use tez_lead::Lead;
use tez_master_model::Why;
use tez_plan::Plan;
use tez_pool::Pool;
use tez_standing::Standing;

/// The master of a plan. Contracts see its state, and what an answer that is not settled yet is
/// about.
#[derive(Drop)]
pub struct Master {
    pub(crate) lead: Lead,
    pub(crate) pending: Option<Pending>,
}

impl Model for Master {
    ghost use Rattle.std.specs.Prelude.{IfSome};
    ghost use Rattle.std.specs.Option.{option_map};
    ghost use Rattle.tez_master.specs.Master.{MasterParts, step_of, IsReadyFor};

    ghost Value = { MasterParts };

    ghost view = { λ m. record { state = m.lead; pending = option_map step_of m.pending } };

    ghost invariant = { λ m. IfSome m.pending (IsReadyFor m.lead) };
}

impl Master {
    /// The master of a plan with these places, in an epoch above that of those before it. It goes on
    /// from what the journal tells of those, and from the winners that it keeps: these are winners of
    /// the standing, each task once. A commit that one of those started is taken up, which asks for a
    /// journal of version 2. Where the journal tells of a finished job, it is finished, and nothing is
    /// kept. The places are handed back where there is no memory. Takes time in the tasks,
    /// and for each winner in the vertices and edges.
    pub fn fresh(
        alloc: Global,
        plan: Plan,
        conf: Conf,
        epoch: Epoch,
        s: &Standing,
        kept: &[Kept],
        pool: Pool,
    ) -> Result<Master, Pool>
        // `Pool::is_within` is the test of this.
        requires within { AreIn plan pool.places }
        requires places { pool.per_node ≡ conf.per_node }
        requires version { HasVersion s.now }
        requires found { CanBeFound (fresh plan conf epoch.0 pool) s.now kept.now }
        ensures state { IfOk result (λ m. m.state ≡ found (fresh plan conf epoch.0 pool) s.now kept.now) }
        ensures pending { IfOk result (λ m. m.pending ≡ None) }
        ensures handed_back { IfErr result (λ back. back ≡ pool) }
    {
        let lead = match Lead::fresh(alloc, plan, conf, epoch, s, kept, pool) {
            Ok(lead) => lead,
            Err(pool) => return Err(pool),
        };
        Ok(Master {
            lead,
            pending: None,
        })
    }

    /// The places alone. An answer that was not settled is dropped.
    pub fn into_pool(self) -> Pool
        ensures { result ≡ self.state.pool }
    {
        self.lead.into_pool()
    }

    /// Answers an event, with all the memory that settling the answer needs. An answer before that
    /// was not settled is dropped. Takes the time of the entries that it tells.
    #[tactic(auto, using(crate::proofs::Rooms::can_tell, crate::proofs::Rooms::single_unprepared))]
    pub fn handle(&mut self, alloc: Global, e: &CoreEvent) -> Result<Handled, AllocError>
        requires numbers { HasNumbers self.old.state }
        ensures same { self.new.state ≡ self.old.state }
        ensures taken { IfOk result (λ h. is_ignored h ≡ not (enabled_in self.old.state e.now)) }
        ensures why { IfOk result (λ h. IsIgnoredFor h (why_not self.old.state e.now)) }
        ensures entries { enabled_in self.old.state e.now ≡ true
            → IfOk result (λ h. entries_told h ≡ entries_in self.old.state e.now) }
        ensures records { enabled_in self.old.state e.now ≡ true
            → IfOk result (λ h. records_told h ≡ records_of (entries_in self.old.state e.now)) }
        ensures ordered { enabled_in self.old.state e.now ≡ true
            → IfOk result (λ h. ordered_told h ≡ ordered_in e.now) }
        ensures spent { enabled_in self.old.state e.now ≡ true
            → IfOk result (λ h. spent_told h ≡ spent_in self.old.state e.now) }
        ensures single { enabled_in self.old.state e.now ≡ true
            → IfOk result (λ h. is_single_answer h ≡ is_single self.old.state e.now) }
        ensures pending { OnOk result (self.new.pending
            ≡ (if enabled_in self.old.state e.now then Some (Took e.now) else None)) }
        ensures dropped { OnErr result (self.new.pending ≡ None) }
        ensures no_memory { (is_single self.old.state e.now ≡ true) ⊎ (enabled_in self.old.state e.now ≡ false)
            → IsOk result }
    {
        self.pending = None;
        if !self.lead.is_enabled(e) {
            return Ok(Handled::Ignored(self.lead.why_not(e)));
        }
        match single(self.lead.core(), e) {
            Some((entry, kept)) => {
                self.pending = Some(Pending::Event(*e));
                Ok(Handled::Single(entry, kept))
            }
            None => self.answer(alloc, e),
        }
    }

    // The answer to an event that may come, and takes memory.
    fn answer(&mut self, alloc: Global, e: &CoreEvent) -> Result<Handled, AllocError>
        requires enabled { enabled_in self.old.state e.now ≡ true }
        requires can { CanTell self.old.state e.now }
        requires none { self.old.pending ≡ None }
        ensures same { self.new.state ≡ self.old.state }
        ensures taken { IfOk result (λ h. is_ignored h ≡ false) }
        ensures single { IfOk result (λ h. is_single_answer h ≡ false) }
        ensures entries { IfOk result (λ h. entries_told h ≡ entries_in self.old.state e.now) }
        ensures records { IfOk result (λ h. records_told h ≡ records_of (entries_in self.old.state e.now)) }
        ensures ordered { IfOk result (λ h. ordered_told h ≡ ordered_in e.now) }
        ensures spent { IfOk result (λ h. spent_told h ≡ spent_in self.old.state e.now) }
        ensures pending { OnOk result (self.new.pending ≡ Some (Took e.now)) }
        ensures dropped { OnErr result (self.new.pending ≡ None) }
    {
        let effects = effects(alloc, self.lead.core(), e)?;
        let pending = prepare(alloc, self.lead.core(), e)?;
        self.pending = Some(pending);
        Ok(Handled::Done(effects))
    }

    /// Answers the report of an attempt that succeeded, with the bytes of its pieces on each
    /// scatter-gather edge out of its vertex, by edge. Ignored where the attempt is not processing.
    pub fn done(
        &mut self,
        alloc: Global,
        a: AttemptId,
        made: &[(EdgeId, u64)],
    ) -> Result<Handled, AllocError>
        ensures same { self.new.state ≡ self.old.state }
        ensures taken { IfOk result (λ h. is_ignored h ≡ not (processes self.old.state a)) }
        ensures why { IfOk result (λ h. (w : Why) → why_in self.old.state a ≡ Some w → IsIgnoredFor h w) }
        ensures entries { processes self.old.state a ≡ true
            → IfOk result (λ h. entries_told h ≡ done_entries a (map bytes_of made.now)) }
        ensures records { processes self.old.state a ≡ true
            → IfOk result (λ h. records_told h ≡ records_of (done_entries a (map bytes_of made.now))) }
        ensures ordered { IfOk result (λ h. ordered_told h ≡ None) }
        ensures spent { IfOk result (λ h. spent_told h ≡ None) }
        ensures single { IfOk result (λ h. is_single_answer h ≡ false) }
        ensures pending { OnOk result (self.new.pending
            ≡ (if processes self.old.state a then Some (Reported a made.now) else None)) }
        ensures dropped { OnErr result (self.new.pending ≡ None) }
        ensures no_memory { processes self.old.state a ≡ false → IsOk result }
    {
        self.pending = None;
        if !self.lead.core().processes(a) {
            return Ok(Handled::Ignored(why_ignored(self.lead.core(), a)));
        }
        let entries = success(alloc, a, made)?;
        let records = records(alloc, entries.as_slice())?;
        let made = Vec::from_slice(alloc, made)?;
        self.pending = Some(Pending::Report(a, made));
        Ok(Handled::Done(Effects {
            entries,
            records,
            ordered: None,
            spent: None,
        }))
    }

    /// Answers that the store was asked of a sink, whose text is there already or not. Ignored exactly
    /// where `may_ask` says no. Takes no memory, so it is never an error, and time in the vertices.
    pub fn asked(&mut self, v: VertexId, there: bool) -> Result<Handled, AllocError>
        ensures same { self.new.state ≡ self.old.state }
        ensures taken { IfOk result (λ h. is_ignored h ≡ not (may_ask self.old.state v.0)) }
        ensures why { IfOk result (λ h. IsIgnoredFor h Why.NotEnabled) }
        ensures entries { may_ask self.old.state v.0 ≡ true
            → IfOk result (λ h. entries_told h ≡ asked_entries v there) }
        ensures records { may_ask self.old.state v.0 ≡ true
            → IfOk result (λ h. records_told h ≡ records_of (asked_entries v there)) }
        ensures ordered { IfOk result (λ h. ordered_told h ≡ None) }
        ensures spent { IfOk result (λ h. spent_told h ≡ None) }
        ensures single { IfOk result (λ h. is_single_answer h ≡ may_ask self.old.state v.0) }
        ensures pending { self.new.pending ≡ (if may_ask self.old.state v.0 then Some (Asked v there) else None) }
        ensures no_memory { IsOk result }
    {
        self.pending = None;
        if !self.lead.core().may_ask(v) {
            return Ok(Handled::Ignored(Why::NotEnabled));
        }
        let (entry, kept) = asked(v, there);
        self.pending = Some(Pending::Asked(v, there));
        Ok(Handled::Single(entry, kept))
    }
}
