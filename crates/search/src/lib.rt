// What is looked for among slots: three questions, each with its test of a slot. No layout of the table is here: whoever holds the slots
// has the loop, which asks any of them.
#![tactic(auto)]

ghost use Rattle.std.specs.Prelude.{◌≡◌, true, Bool};
ghost use Rattle.area.specs.Area.{normal, same_area};
ghost use Rattle.links.specs.Slots.{unused, with};
ghost use Rattle.links.specs.declared.Slot.{Slot};
ghost use Rattle.search.specs.Search.{on_ground, on_latitude, overlapping, may_overlap};
ghost use Rattle.search.specs.Looked.{ground_looked, overlap_looked};

use area::Area;
use links::Slot;
use prefix::Prefix;

// A question about a slot.
pub trait Question: Copy {
    // which slots pass, and what a look at its first numbers tells of a slot
    ghost test: { Self → Slot → Bool };

    ghost look: { Self → Slot → Bool };

    fn passes(self, x: &Slot) -> bool
        ensures { result ≡ test self x.now };

    // Whether a slot may pass, by a look at its first numbers. A loop asks this of every slot, and the question itself of those few
    // that may.
    fn may_pass(self, x: &Slot) -> bool
        ensures { result ≡ look self x.now };

    // no slot is gone past that passes
    ghost looked: { (q : Self) (x : Slot) → test q x ≡ true → look q x ≡ true };
}

// A slot that is not enabled.
#[derive(Clone, Copy)]
pub struct Unused;

impl Question for Unused {
    ghost test = { λ q. unused };

    ghost look = { λ q. unused };

    ghost looked = { λ q x passes. passes };

    fn passes(self, x: &Slot) -> bool {
        !x.enabled
    }

    fn may_pass(self, x: &Slot) -> bool {
        self.passes(x)
    }
}

// A link whose area is the same ground. The normal form of the area is found once, and not for every slot.
#[derive(Clone, Copy)]
pub struct SameGround {
    normal: Area,
}

impl SameGround {
    pub fn of(area: Area) -> SameGround
        ensures value { result ≡ record { normal = normal area } }
        ensures asks { ⟦<SameGround as Question>⟧.test result ≡ with (λ s. same_area s.area area) }
    {
        SameGround {
            normal: area::normal(area),
        }
    }
}

impl Question for SameGround {
    ghost test = { λ q. with (on_ground q.normal) };

    ghost look = { λ q. with (on_latitude q.normal) };

    ghost looked = { λ q. ground_looked q.normal };

    fn passes(self, x: &Slot) -> bool {
        x.enabled && area::has_normal(x.settings.area, self.normal)
    }

    fn may_pass(self, x: &Slot) -> bool {
        x.enabled & (x.settings.area.latitude == self.normal.latitude)
    }
}

// A link with a prefix that overlaps this one. What holds an address is what has a prefix that overlaps the prefix of that address alone.
#[derive(Clone, Copy)]
pub struct Overlapping(pub Prefix);

impl Question for Overlapping {
    ghost test = { λ q. with (overlapping q.0) };

    ghost look = { λ q. with (may_overlap q.0) };

    ghost looked = { λ q. overlap_looked q.0 };

    fn passes(self, x: &Slot) -> bool {
        x.enabled && prefixes::meets(x.settings.prefixes, self.0)
    }

    fn may_pass(self, x: &Slot) -> bool {
        x.enabled && prefixes::may_meet(x.settings.prefixes, self.0)
    }
}
