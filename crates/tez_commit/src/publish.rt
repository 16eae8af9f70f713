// The publication of a sink that was put aside.
ghost use Rattle.std.specs.Prelude.{◌≡◌, option_map, IsSome, OnOk, OnErr, IsErrOf};
ghost use Rattle.tez_ports.specs.Causes.{DeviceHasCause};
ghost use Rattle.tez_ports.specs.Content.{Told, IsEither, LacksReadied, bytes_of, publishes};

use tez_ports::{DeviceStop, OutputStore};

/// Publishes the bytes that were put aside under a name, once, after what was published before.
/// A name that is not readied is Failed. Takes no memory.
pub fn publish_next<S: OutputStore>(store: &mut S, name: &str) -> Result<(), DeviceStop>
    ensures readied { OnOk result (Told (S.store store.old) (λ s. IsSome (bytes_of name.now s.readied))) }
    ensures ok { OnOk result (S.store store.new ≡ option_map (publishes name.now) (S.store store.old)) }
    ensures err { OnErr result (IsEither (publishes name.now) (S.store store.old) (S.store store.new)) }
    ensures lent { S.lent store.new ≡ S.lent store.old }
    ensures cause { DeviceHasCause (S.faults store.old) (S.stops store.old)
        (S.faults store.new) (S.stops store.new) result }
    ensures stays_faultless { S.is_faultless store.old → S.is_faultless store.new }
    ensures stays_sure { S.is_sure store.old → S.is_sure store.new }
    ensures faultless { S.is_faultless store.old → IsErrOf result DeviceStop.Failed
        → Told (S.store store.old) (LacksReadied name.now) }
    ensures sure { S.is_sure store.old → OnErr result (Told (S.store store.old) (LacksReadied name.now)) }
    ensures never_stops { S.is_sure store.old → IsErrOf result DeviceStop.Stopped → ⊥ }
{
    store.publish(name)
}
