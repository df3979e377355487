// Groups of an IPv6 address that have been read: how many, and the number that they write.
ghost use Rattle.std.specs.Prelude.{◌≡◌, ◌+◌, ◌-◌, ◌*◌, ◌^◌, ◌==◌, [], ◌∷◌, nat_le};
ghost use Rattle.std.specs.Bool.{then_some};
ghost use Rattle.notation.specs.Groups.{total};

use std::marker::Model;

// How many groups an address has.
const GROUPS: u32 = 8;

// How many values a group of 16 bits has.
const GROUP_VALUES: u128 = 65536;

#[derive(Clone, Copy)]
pub(crate) struct Groups {
    count: u32,
    value: u128,
}

impl Model for Groups {
    ghost use Rattle.std.specs.Prelude.{ℕ, ◌^◌, ◌<◌, ◌≤◌};

    ghost Value = { ℕ × ℕ };

    ghost view = { λ g. (g.count, g.value) };

    ghost invariant = { λ g. (g.count ≤ 8) × (g.value < 65536 ^ g.count) };

    ghost inverse = { λ v. record { count = v.0; value = v.1 } };
}

impl Groups {
    pub(crate) fn none() -> Groups
        ensures { result ≡ (0, 0) }
    {
        Groups { count: 0, value: 0 }
    }

    // One group more, unless there are eight.
    pub(crate) fn push(self, group: u16) -> Option<Groups>
        ensures { result ≡ total self (group ∷ []) }
    {
        if self.count == GROUPS {
            return None;
        }
        Some(Groups {
            count: self.count + 1,
            value: self.value * GROUP_VALUES + u128::from(group),
        })
    }

    // The address that eight groups write.
    pub(crate) fn address(self) -> Option<u128>
        ensures { result ≡ then_some (self.0 == 8) self.1 }
    {
        (self.count == GROUPS).then_some(self.value)
    }

    // The address of these groups and those right of `::`, which stands for one group at least.
    pub(crate) fn join_around_zeros(self, right: Groups) -> Option<u128>
        ensures { result ≡ then_some (nat_le (self.0 + right.0) 7) (self.1 * 65536 ^ (8 - self.0) + right.1) }
    {
        if !self.leave_room(right) {
            None
        } else if self.count == 0 {
            Some(right.value)
        } else {
            Some(self.value * GROUP_VALUES.pow(GROUPS - self.count) + right.value)
        }
    }

    // Whether there is a group left for `::` to stand for.
    fn leave_room(self, right: Groups) -> bool
        ensures { result ≡ nat_le (self.0 + right.0) 7 }
    {
        self.count + right.count < GROUPS
    }
}
