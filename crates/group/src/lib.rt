// Rows in groups, and which rows are beaten by one pass over them: a row is out exactly when the lowest MED of its group is below its
// own. The rounds of a contest look again and again at which rows are beaten, so they do it this way; `choice` has step 4 as it is
// stated.
#![tactic(auto)]

ghost use Rattle.std.specs.Prelude.{◌≡◌, not, ℕ, ◌≤◌, ◌<◌, length, eqb, ltb};
ghost use Rattle.model.specs.Rows.{keep, span, column};
ghost use Rattle.model.specs.Contest.{least_or};
ghost use Rattle.model.specs.Lent.{Inside};
ghost use Rattle.model.specs.Columns.{most_rows};
ghost use Rattle.model.specs.Listing.{group_by, groups_in, first_place};

// The first place of a list whose row has what the row at place k has in a column.
fn group_of(key: &[u32], rows: &[u16], k: usize) -> usize
    requires { Inside (length key.now) rows.now × (k < length rows.now) }
    ensures { result ≡ group_by (λ p. column key.now (column rows.now p)) k }
{
    let value = key[rows[k] as usize];
    rows[..k]
        .iter()
        .position(|&q| key[q as usize] == value)
        .unwrap_or(k)
}

// For each place of a list the group of its row: the first place whose row has the same in a column.
pub fn groups(key: &[u32], rows: &[u16], group: &mut [u32])
    requires { Inside (length key.now) rows.now × (length rows.now ≤ most_rows) × (length group.old ≡ length rows.now) }
    ensures { group.new ≡ groups_in key.now rows.now }
{
    for (k, first) in group.iter_mut().enumerate() {
        *first = group_of(key, rows, k) as u32;
    }
}

// Lowers the number of each bucket to the least key of the rows in it.
pub fn lower(bucket: &[u32], key: &[u32], low: &mut [u32])
    requires { (length key.now ≡ length bucket.now) × ((q : ℕ) → q < length bucket.now → column bucket.now q < length low.old) }
    ensures { (k : ℕ) → column low.new k ≡ least_or (column low.old k) (column key.now) (keep (λ q. eqb (column bucket.now q) k) (span 0 (length bucket.now))) }
{
    for (&b, &k) in bucket.iter().zip(key) {
        let least = &mut low[b as usize];
        *least = k.min(*least);
    }
}

// The place of the first row with a MED no higher than the lowest of its group, or the end of the rows.
pub fn first_spared(group: &[u32], med: &[u32], low: &[u32]) -> u32
    requires { (length group.now ≤ most_rows) × (length med.now ≡ length group.now) × ((q : ℕ) → q < length group.now → column group.now q < length low.now) }
    ensures { result ≡ first_place (λ q. not (ltb (column low.now (column group.now q)) (column med.now q))) (span 0 (length group.now)) }
{
    let place = group
        .iter()
        .zip(med)
        .position(|(&g, &m)| m <= low[g as usize])
        .unwrap_or(group.len());
    place as u32
}
