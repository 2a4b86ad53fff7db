// Where the contest of a prefix comes to rest, over lent columns: rounds in which every router goes to its first contender that
// nothing passed beats. From 'all at their first place' they lead to the early assignment, from 'all past their end' to the late one.
// The contenders stand router after router, each router's in its own order, with their groups and MEDs in columns by place; a round is
// two passes along these.
#![tactic(auto)]

ghost use Rattle.std.specs.Prelude.{◌≡◌, ◌≤◌, true, false, not, ℕ, suc, min, length, replicate, eqb, ltb};
ghost use Rattle.model.specs.Rows.{keep, table, column};
ghost use Rattle.model.specs.Decision.{beats_by};
ghost use Rattle.model.specs.Contest.{times, least_or};
ghost use Rattle.model.specs.Columns.{most_routers, most_rows, past_keys};
ghost use Rattle.model.specs.Listing.{own_places, passed_rows, first_place, round_by, settled_by, Ready};

// A number for each router that no place is above.
pub fn unplaced() -> [u32; rows::MOST_ROUTERS]
    ensures { result ≡ replicate most_routers past_keys }
{
    [rows::PAST_KEYS; rows::MOST_ROUTERS]
}

// How many of a router's contenders stand at or before its place.
fn reach(place: u32, end: u32) -> usize
    ensures { result ≡ min (suc place) end }
{
    (place as usize + 1).min(end as usize)
}

// The contenders of a prefix by place, router after router: the group and the MED of each, and how many each router has.
#[derive(Clone, Copy)]
pub struct Contest<'a> {
    pub group: &'a [u32],
    pub med: &'a [u32],
    pub ends: &'a [u32],
    ghost ready: { Ready group.now med.now ends.now },
    ghost meds_fit: { (q : ℕ) → column med.now q ≤ past_keys },
}

impl<'a> Contest<'a> {
    // The contest of these columns.
    pub fn new(group: &'a [u32], med: &'a [u32], ends: &'a [u32]) -> Contest<'a>
        requires { Ready group.now med.now ends.now }
        ensures { (result.group.now ≡ group.now) × (result.med.now ≡ med.now) × (result.ends.now ≡ ends.now) }
    {
        Contest { group, med, ends }
    }
}

impl Contest<'_> {
    // Lowers the number of each group to the least MED of the contenders that stand at or before the place that their router has.
    fn pass(&self, state: &[u32], low: &mut [u32])
        requires { (length state.now ≡ length self.now.ends.now) × (length low.old ≡ most_rows) }
        ensures { (k : ℕ) → column low.new k ≡ least_or (column low.old k) (column self.now.med.now) (keep (λ q. eqb (column self.now.group.now q) k) (passed_rows (own_places self.now.ends.now) state.now (length self.now.ends.now))) }
    {
        let mut from = 0;
        for (r, &end) in self.ends.iter().enumerate() {
            let to = from + reach(state[r], end);
            group::lower(&self.group[from..to], &self.med[from..to], low);
            from += end as usize;
        }
    }

    // Gives each router the place of its first contender with a MED no higher than the lowest of its group, or its end; whether any
    // router's place is another than before.
    fn advance(&self, low: &[u32], state: &mut [u32]) -> bool
        requires { (length state.old ≡ length self.now.ends.now) × (length low.now ≡ most_rows) }
        ensures places { state.new ≡ table (length self.now.ends.now) (λ r. first_place (λ q. not (ltb (column low.now (column self.now.group.now q)) (column self.now.med.now q))) (own_places self.now.ends.now r)) }
        ensures unmoved { result ≡ false → state.new ≡ state.old }
    {
        let mut from = 0;
        let mut moved = false;
        // Of a zip over iter_mut the kit's proofs do not know what it leaves in the slice, so the ends are read by number.
        for (r, place) in state.iter_mut().enumerate() {
            let to = from + self.ends[r] as usize;
            let next = group::first_spared(&self.group[from..to], &self.med[from..to], low);
            moved |= next != *place;
            *place = next;
            from = to;
        }
        moved
    }

    // A round: each router's next place, by the contenders that are passed so far. Whether any router's place is another than before.
    fn round(&self, state: &mut [u32]) -> bool
        requires { length state.old ≡ length self.now.ends.now }
        ensures places { state.new ≡ round_by (beats_by (column self.now.group.now) (column self.now.med.now)) (own_places self.now.ends.now) (length self.now.ends.now) state.old }
        ensures unmoved { result ≡ false → state.new ≡ state.old }
    {
        let mut low = rows::past();
        self.pass(state, &mut low);
        self.advance(&low, state)
    }

    // Rounds until one changes nothing, and at most as many as there are contenders.
    fn settle(&self, state: &mut [u32])
        requires { length state.old ≡ length self.now.ends.now }
        ensures { state.new ≡ times (round_by (beats_by (column self.now.group.now) (column self.now.med.now)) (own_places self.now.ends.now) (length self.now.ends.now)) (length self.now.group.now) state.old }
    {
        for _ in self.group {
            if !self.round(state) {
                return;
            }
        }
    }

    // Where rounds lead from every router at its first place: with the contest's lists of a prefix, its earliest state of rest.
    pub fn earliest(&self, state: &mut [u32])
        requires { length state.old ≡ length self.now.ends.now }
        ensures { state.new ≡ settled_by false self.now.group.now self.now.med.now self.now.ends.now }
    {
        state.fill(0);
        self.settle(state);
    }

    // Where rounds lead from every router past its end: with the contest's lists of a prefix, its latest state of rest.
    pub fn latest(&self, state: &mut [u32])
        requires { length state.old ≡ length self.now.ends.now }
        ensures { state.new ≡ settled_by true self.now.group.now self.now.med.now self.now.ends.now }
    {
        state.copy_from_slice(self.ends);
        self.settle(state);
    }
}
