// The routes of a prefix, and its rows that are still kept, as a list of row numbers. Every step keeps the listed rows that pass a
// test, or those with the least or the greatest key, and packs them into the front of the list.
#![tactic(auto)]

ghost use Rattle.std.specs.Prelude.{ℕ, Bool, ◌≡◌, ◌-◌, ◌≤◌, ◌<◌, length, get_or, replicate, eqb};
ghost use Rattle.model.specs.Rows.{keep, span, column, greatest, keep_least, keep_greatest};
ghost use Rattle.model.specs.Decision.{none};
ghost use Rattle.model.specs.Contest.{least_or};
ghost use Rattle.model.specs.Lent.{Inside, Packed};
ghost use Rattle.model.specs.Columns.{most_rows, past_keys};
ghost use Rattle.model.specs.Listing.{gathered};
ghost use Rattle.rows.specs.Lent.{columns_in, cut, Reaches, Each, Gives};

// The most routes of a prefix.
pub const MOST_ROWS: usize = 256;

// The most routers; also the stride of the table of distances.
pub const MOST_ROUTERS: usize = 64;

// No row.
pub const NONE: u16 = 65535;

// No key is above it.
pub const PAST_KEYS: u32 = 4294967295;

// The routes of a prefix: a column for each field, with a MED stored as it counts.
#[derive(Clone, Copy)]
pub struct Routes<'a> {
    pub router: &'a [u32],
    pub asn: &'a [u32],
    pub preference: &'a [u32],
    pub path: &'a [u32],
    pub origin: &'a [u32],
    pub med: &'a [u32],
    pub nid: &'a [u32],
    pub peer: &'a [u32],
}

// What a prefix is decided on: the routers' ids, the table of distances and the routes.
#[derive(Clone, Copy)]
pub struct Mesh<'a> {
    pub ids: &'a [u32],
    pub distances: &'a [u32],
    pub routes: Routes<'a>,
}

impl<'a> Routes<'a> {
    // The routes from one row to another.
    pub fn part(&self, first: usize, end: usize) -> Routes<'a>
        requires { (first ≤ end) × Reaches end (columns_in self.now) }
        ensures { columns_in result ≡ cut first (end - first) (columns_in self.now) }
    {
        Routes {
            router: &self.router[first..end],
            asn: &self.asn[first..end],
            preference: &self.preference[first..end],
            path: &self.path[first..end],
            origin: &self.origin[first..end],
            med: &self.med[first..end],
            nid: &self.nid[first..end],
            peer: &self.peer[first..end],
        }
    }
}

// Room for a list of all rows, that lists none.
pub fn unlisted() -> [u16; MOST_ROWS]
    ensures { result ≡ replicate most_rows none }
{
    [NONE; MOST_ROWS]
}

// A number for each row, or bucket, that no key is above.
pub fn past() -> [u32; MOST_ROWS]
    ensures { result ≡ replicate most_rows past_keys }
{
    [PAST_KEYS; MOST_ROWS]
}

// Of the listed rows, those that pass a test: packed into the front of the list, so many.
pub fn keep<F: Fn(usize) -> bool>(rows: &mut [u16], test: F) -> usize
    requires { Each (F.pre test) rows.old }
    ensures { (t : ℕ → Bool) → Gives (F.post test) t rows.old → Packed result rows.old rows.new (keep t rows.old) }
{
    let mut n = 0;
    // By index: the list is packed in place, so it is written while it is read.
    for i in 0..rows.len() {
        let q = rows[i];
        if test(q as usize) {
            rows[n] = q;
            n += 1;
        }
    }
    n
}

// The least key of the listed rows; the greatest number where none is listed.
fn least_key<F: Fn(usize) -> u32>(rows: &[u16], key: F) -> u32
    requires { Each (F.pre key) rows.now }
    ensures { (k : ℕ → ℕ) → Gives (F.post key) k rows.now → (result ≡ least_or past_keys k rows.now) × Each (λ q. k q ≤ past_keys) rows.now }
{
    let mut low = PAST_KEYS;
    for q in rows {
        low = low.min(key(*q as usize));
    }
    low
}

// Of the listed rows, those whose key is the least.
pub fn keep_lowest<F: Fn(usize) -> u32>(rows: &mut [u16], key: F) -> usize
    requires { Each (F.pre key) rows.old }
    ensures { (k : ℕ → ℕ) → Gives (F.post key) k rows.old → Packed result rows.old rows.new (keep_least k rows.old) }
{
    let low = least_key(rows, &key);
    keep(
        rows,
        |q|
            requires { F.pre key q }
            ensures { (v : ℕ) × F.post key q v × (result ≡ eqb v low) }
        { key(q) == low },
    )
}

// The greatest key of the listed rows; 0 where none is listed.
fn greatest_key<F: Fn(usize) -> u32>(rows: &[u16], key: F) -> u32
    requires { Each (F.pre key) rows.now }
    ensures { (k : ℕ → ℕ) → Gives (F.post key) k rows.now → result ≡ greatest k rows.now }
{
    let mut high = 0;
    for q in rows {
        high = high.max(key(*q as usize));
    }
    high
}

// Of the listed rows, those whose key is the greatest.
pub fn keep_highest<F: Fn(usize) -> u32>(rows: &mut [u16], key: F) -> usize
    requires { Each (F.pre key) rows.old }
    ensures { (k : ℕ → ℕ) → Gives (F.post key) k rows.old → Packed result rows.old rows.new (keep_greatest k rows.old) }
{
    let high = greatest_key(rows, &key);
    keep(
        rows,
        |q|
            requires { F.pre key q }
            ensures { (v : ℕ) × F.post key q v × (result ≡ eqb v high) }
        { key(q) == high },
    )
}

// Lists every row.
pub fn keep_all(rows: &mut [u16])
    requires { length rows.old ≤ most_rows }
    ensures { rows.new ≡ span 0 (length rows.old) }
{
    for (i, row) in rows.iter_mut().enumerate() {
        *row = i as u16;
    }
}

// The first listed row, or none.
pub fn first(rows: &[u16]) -> u16
    ensures { result ≡ get_or rows.now 0 none }
{
    rows.first().copied().unwrap_or(NONE)
}

// The keys of the listed rows, in the order of the list.
pub fn gather(key: &[u32], rows: &[u16], out: &mut [u32])
    requires { Inside (length key.now) rows.now × (length out.old ≡ length rows.now) }
    ensures { out.new ≡ gathered key.now rows.now }
{
    for (i, q) in rows.iter().enumerate() {
        out[i] = key[*q as usize];
    }
}
