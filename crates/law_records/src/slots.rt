ghost use Rattle.std.specs.Prelude.{◌≡◌, ℕ, ◌&&◌, ◌||◌, nat_lt, ◌==◌, false, Bool, List, map};
ghost use Rattle.std.specs.Option.{option_map_or};
ghost use Rattle.std.specs.List.{list_any, range_with_len};
ghost use Rattle.boss_model.specs.declared.state.Actuator.{Actuator};
ghost use Rattle.boss_model.specs.declared.state.Lease.{Lease};
ghost use Rattle.boss_model.specs.Renew.{extended_if};
ghost use Rattle.boss_model.specs.Sound.{Rising, IsSoundPersistent};
ghost use Rattle.boss_model.specs.State.{lease_slot, Persistent};
ghost use Rattle.law_effects.specs.Early.{slot_lease};

/// Of the leases on a point of a sound persistent part some one passes a test exactly where one does that is found in the sixteen
/// slots of the point.
pub fn a_point_is_seen_from_its_slots()
    ensures { (plant : List Actuator) (d : Persistent) (test : Lease → Bool) (point : ℕ) → IsSoundPersistent plant d →
        list_any (λ lease. test lease && (lease.point == point)) d.leases
        ≡ list_any (λ priority. option_map_or test (slot_lease d.leases point priority) false) (range_with_len 1 16) }
{}

/// Leases that are extended slot by slot are extended in all these slots, and one of them was made longer exactly where one was
/// shorter before. They stay in order of slots, so what is found in a slot is its only lease.
pub fn leases_are_extended_in_turn()
    ensures all { (first next : Lease → Bool) (until : ℕ) (leases : List Lease) →
        map (extended_if next until) (map (extended_if first until) leases) ≡ map (extended_if (λ lease. first lease || next lease) until) leases }
    ensures longer { (first next : Lease → Bool) (until : ℕ) (leases : List Lease) →
        (list_any (λ lease. first lease && nat_lt lease.until until) leases
        || list_any (λ lease. next lease && nat_lt lease.until until) (map (extended_if first until) leases))
        ≡ list_any (λ lease. (first lease || next lease) && nat_lt lease.until until) leases }
    ensures in_order { (first : Lease → Bool) (until : ℕ) (leases : List Lease) → Rising lease_slot leases → Rising lease_slot (map (extended_if first until) leases) }
    ensures looked_up { (test : Lease → Bool) (point priority : ℕ) (leases : List Lease) → Rising lease_slot leases →
        list_any (λ lease. test lease && ((lease.point == point) && (lease.priority == priority))) leases
        ≡ option_map_or test (slot_lease leases point priority) false }
{}
