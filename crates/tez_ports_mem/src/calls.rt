//! Which calls are to fail or to be stopped.
ghost use Rattle.std.specs.Prelude.{◌≡◌, ◌≢◌, ◌≤◌, []};
ghost use Rattle.tez_ports.specs.Causes.{Rose};
ghost use Rattle.tez_ports_mem.specs.Calls.{IsCounted, due_at};

/// What is due at a call.
#[derive(Clone, Copy)]
pub(crate) enum Due {
    Answer,
    Fail,
    Stop,
}

/// Counts the calls of a device, its faults and its stops.
#[derive(Drop)]
pub(crate) struct Calls {
    pub(crate) count: u64,
    pub(crate) fail: Vec<u64>,
    pub(crate) stop: Vec<u64>,
    pub(crate) faults: u64,
    pub(crate) stops: u64,
}

impl Calls {
    pub(crate) fn new(fail: Vec<u64>, stop: Vec<u64>) -> Self
        ensures faults { result.faults ≡ 0 }
        ensures stops { result.stops ≡ 0 }
        ensures count { result.count ≡ 0 }
        ensures fail { result.fail.items ≡ fail.items }
        ensures stop { result.stop.items ≡ stop.items }
    {
        Calls {
            count: 0,
            fail,
            stop,
            faults: 0,
            stops: 0,
        }
    }

    /// Counts a call, and a fault or a stop where it is due. The time grows with the lists.
    pub(crate) fn due(&mut self) -> Due
        ensures due { result ≡ due_at self.old.fail.items self.old.stop.items self.new.count }
        ensures never_fails { self.old.fail.items ≡ [] → result ≢ Due.Fail }
        ensures counted { Rose self.old.count self.new.count }
        ensures fail { self.new.fail.items ≡ self.old.fail.items }
        ensures stop { self.new.stop.items ≡ self.old.stop.items }
        ensures counts { IsCounted result self.old.faults self.old.stops self.new.faults self.new.stops }
    {
        self.count = self.count.saturating_add(1);
        if self.fail.contains(&self.count) {
            self.faults = self.faults.saturating_add(1);
            Due::Fail
        } else if self.stop.contains(&self.count) {
            self.stops = self.stops.saturating_add(1);
            Due::Stop
        } else {
            Due::Answer
        }
    }

    /// Counts a call that fails whatever the lists say.
    pub(crate) fn fault_at_call(&mut self)
        ensures counted { Rose self.old.count self.new.count }
        ensures rose { Rose self.old.faults self.new.faults }
        ensures later { self.old.faults ≤ self.new.faults }
        ensures stops { self.new.stops ≡ self.old.stops }
        ensures fail { self.new.fail.items ≡ self.old.fail.items }
        ensures stop { self.new.stop.items ≡ self.old.stop.items }
    {
        self.count = self.count.saturating_add(1);
        self.fault();
    }

    /// Counts a fault that the lists do not name.
    pub(crate) fn fault(&mut self)
        ensures rose { Rose self.old.faults self.new.faults }
        ensures later { self.old.faults ≤ self.new.faults }
        ensures stops { self.new.stops ≡ self.old.stops }
        ensures count { self.new.count ≡ self.old.count }
        ensures fail { self.new.fail.items ≡ self.old.fail.items }
        ensures stop { self.new.stop.items ≡ self.old.stop.items }
    {
        self.faults = self.faults.saturating_add(1);
    }
}
