ghost use Rattle.std.specs.Prelude.{◌≡◌, ℕ, ◌≤◌, ◌+◌, ℤ, unsigned_abs, false, true, List, length, map, filter, Some, is_some};
ghost use Rattle.std.specs.Option.{option_map_or};
ghost use Rattle.std.specs.List.{list_any, AllByRecursion};
ghost use Rattle.boss_model.specs.declared.notice.Cause.{Cause};
ghost use Rattle.boss_model.specs.declared.state.Actuator.{Actuator};
ghost use Rattle.boss_model.specs.declared.state.Lease.{Lease};
ghost use Rattle.boss_model.specs.Ends.{is_of, end_leases};
ghost use Rattle.boss_model.specs.Happenings.{Happening};
ghost use Rattle.boss_model.specs.Limits.{most_writes};
ghost use Rattle.boss_model.specs.Lists.{member};
ghost use Rattle.boss_model.specs.Queries.{live_of, pending_of};
ghost use Rattle.boss_model.specs.Records.{Transaction};
ghost use Rattle.boss_model.specs.Renew.{transaction_of, named_parts, is_meant, extended_if, renewed};
ghost use Rattle.boss_model.specs.Sound.{IsSoundPersistent};
ghost use Rattle.boss_model.specs.State.{Persistent};
ghost use Rattle.boss_model.specs.Submit.{first_until};
ghost use Rattle.boss_model.specs.Target.{in_force};
ghost use Rattle.law_effects.specs.Changes.{lengthens};
ghost use Rattle.law_effects.specs.Early.{slot_lease};
ghost use Rattle.law_records.specs.Slots.{IsSlot, is_open, open_slots, in_slots, some_shorter, untils_at, soonest, reverts_on};

/// In a sound persistent part a transaction is seen from its record. A part is open exactly where the lease in its slot is the
/// transaction's, and a lease is the transaction's exactly where it holds the slot of an open part. So as many leases live as
/// parts are open, and what ends, or is renewed, is what stands in these slots: of a renewal in those of the parts on the points
/// that it names. These slots are slots of the plant, and no more than a transaction may write. As many reversions of it are under
/// way as it has parts on the points on which it reverts.
pub fn a_transaction_is_seen_from_its_record()
    ensures open_parts { (plant : List Actuator) (d : Persistent) (txn : ℕ) (t : Transaction) → IsSoundPersistent plant d → transaction_of d.txns txn ≡ Some t →
        AllByRecursion (λ part. is_open part ≡ option_map_or (is_of txn) (slot_lease d.leases part.point part.priority) false) t.parts }
    ensures leases_by_parts { (plant : List Actuator) (d : Persistent) (txn : ℕ) (t : Transaction) → IsSoundPersistent plant d → transaction_of d.txns txn ≡ Some t →
        AllByRecursion (λ lease. is_of txn lease ≡ in_slots (open_slots t.parts) lease) d.leases }
    ensures open_any { (plant : List Actuator) (d : Persistent) (txn : ℕ) (t : Transaction) → IsSoundPersistent plant d → transaction_of d.txns txn ≡ Some t →
        list_any (is_of txn) d.leases ≡ list_any is_open t.parts }
    ensures live_count { (plant : List Actuator) (d : Persistent) (txn : ℕ) (t : Transaction) → IsSoundPersistent plant d → transaction_of d.txns txn ≡ Some t →
        live_of txn d ≡ length (filter is_open t.parts) }
    ensures ends_by_slots { (plant : List Actuator) (d : Persistent) (txn : ℕ) (t : Transaction) → IsSoundPersistent plant d → transaction_of d.txns txn ≡ Some t →
        (why : Cause) (n : ℕ) (first : List Happening) → end_leases (is_of txn) why n first d ≡ end_leases (in_slots (open_slots t.parts)) why n first d }
    ensures meant_by_slots { (plant : List Actuator) (d : Persistent) (txn : ℕ) (t : Transaction) → IsSoundPersistent plant d → transaction_of d.txns txn ≡ Some t →
        (points : List ℕ) → AllByRecursion (λ lease. is_meant txn points lease ≡ in_slots (open_slots (named_parts points t.parts)) lease) d.leases }
    ensures known_slots { (plant : List Actuator) (d : Persistent) (txn : ℕ) (t : Transaction) → IsSoundPersistent plant d → transaction_of d.txns txn ≡ Some t →
        (points : List ℕ) → AllByRecursion (IsSlot (length plant)) (open_slots (named_parts points t.parts)) }
    ensures few_slots { (plant : List Actuator) (d : Persistent) (txn : ℕ) (t : Transaction) → IsSoundPersistent plant d → transaction_of d.txns txn ≡ Some t →
        (points : List ℕ) → length points ≤ most_writes → length (open_slots (named_parts points t.parts)) ≤ most_writes }
    ensures renewed_by_slots { (plant : List Actuator) (d : Persistent) (txn : ℕ) (t : Transaction) → IsSoundPersistent plant d → transaction_of d.txns txn ≡ Some t →
        (points : List ℕ) (asked : ℤ) (n : ℕ) → renewed txn asked points n d
        ≡ record d { now = n; leases = map (extended_if (in_slots (open_slots (named_parts points t.parts))) (n + unsigned_abs asked)) d.leases } }
    ensures longer_by_slots { (plant : List Actuator) (d : Persistent) (txn : ℕ) (t : Transaction) → IsSoundPersistent plant d → transaction_of d.txns txn ≡ Some t →
        (points : List ℕ) (until : ℕ) → lengthens txn points until d.leases ≡ some_shorter (open_slots (named_parts points t.parts)) until d.leases }
    ensures first_by_slots { (plant : List Actuator) (d : Persistent) (txn : ℕ) (t : Transaction) → IsSoundPersistent plant d → transaction_of d.txns txn ≡ Some t →
        (points : List ℕ) (asked : ℤ) (n : ℕ) → first_until (filter (is_meant txn points) (renewed txn asked points n d).leases)
        ≡ option_map_or (λ until. until) (soonest (untils_at (renewed txn asked points n d).leases (open_slots (named_parts points t.parts)))) 0 }
    ensures pending_by_points { (plant : List Actuator) (d : Persistent) (txn : ℕ) (t : Transaction) → IsSoundPersistent plant d → transaction_of d.txns txn ≡ Some t →
        (reverting : List ℕ) → ((point : ℕ) → member point reverting ≡ reverts_on txn point d.pending) →
        pending_of txn d ≡ length (filter (λ part. member part.point reverting) t.parts) }
{}

/// Each lease of a sound persistent part, and so the one in force on a point, is of a transaction that has its record.
pub fn a_lease_has_its_record()
    ensures leases { (plant : List Actuator) (d : Persistent) → IsSoundPersistent plant d →
        AllByRecursion (λ lease. is_some (transaction_of d.txns lease.txn) ≡ true) d.leases }
    ensures in_force { (plant : List Actuator) (d : Persistent) (point : ℕ) (lease : Lease) → IsSoundPersistent plant d → in_force d.leases point ≡ Some lease →
        is_some (transaction_of d.txns lease.txn) ≡ true }
{}
