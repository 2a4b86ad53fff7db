// The first pass over a snapshot: the whole input is judged, section by section, and no table is touched.
#![tactic(auto)]

ghost use Rattle.std.specs.Prelude.{◌≡◌, ◌+◌, ◌<◌, []};
ghost use Rattle.snapshot.specs.Format.{pairs};
ghost use Rattle.snapshot.specs.Reading.{reading};
ghost use Rattle.scan.specs.Scan.{said, said_of, told, Went, Routers, Distances, Rows, Items, Follows};

use cursor::{Cursor, Sofar};
use refusal::Refused;
use snapshot::Counts;

// The routers: each id is compared with those before it, which are read again where they stand.
fn routers(mut c: Cursor, input: &[u8], n: u32) -> Result<Cursor, Refused>
    requires { Routers input.now n c.at 0 c }
    ensures { Went input.now (Distances input.now n (pairs n)) result }
{
    let first = c.at;
    for given in 0..n as usize {
        let (next, _) = c.router(input, n, first, given)?;
        c = next;
    }
    Ok(c)
}

// The distances from one router to the others.
fn row(mut c: Cursor, input: &[u8], n: u32, from: u32) -> Result<Cursor, Refused>
    requires { (from < n) × Rows input.now n from c }
    ensures { Went input.now (Rows input.now n (from + 1)) result }
{
    for to in 0..n {
        if from == to {
            continue;
        }
        let (next, _) = c.distance(input, n, from, to)?;
        c = next;
    }
    Ok(c)
}

fn distances(mut c: Cursor, input: &[u8], n: u32) -> Result<Cursor, Refused>
    requires { Distances input.now n (pairs n) c }
    ensures { Went input.now (Distances input.now n []) result }
{
    for from in 0..n {
        c = row(c, input, n, from)?;
    }
    Ok(c)
}

// One record of the last section: a prefix or a route, with which the next follows, or else it must be the end.
fn one_item(c: Cursor, input: &[u8], k: Sofar) -> Result<Option<(Cursor, Sofar)>, Refused>
    requires { Items input.now c k }
    ensures { Follows input.now c k result }
{
    let kind = cursor::kind_at(input, c.at);
    if kind == 4 {
        let (next, p) = c.prefix(input, k)?;
        return Ok(Some((next, k.with_prefix(p))));
    }
    if snapshot::route_stands(kind) {
        let (next, r) = c.route(input, k)?;
        return Ok(Some((next, k.with_route(r))));
    }
    c.end(input)?;
    Ok(None)
}

// The prefixes and their routes, to the end of the input.
fn items(mut c: Cursor, input: &[u8], mut k: Sofar) -> Result<Counts, Refused>
    requires { Items input.now c k }
    ensures { result ≡ told (reading input.now) }
{
    while let Some((next, more)) = one_item(c, input, k)? {
        c = next;
        k = more;
    }
    Ok(Counts {
        routers: k.routers,
        prefixes: k.prefixes,
        routes: k.routes,
    })
}

// Judges a whole input: the counts of the snapshot that it is, or the refusal that it earns.
pub fn judge(input: &[u8]) -> Result<Counts, Refused>
    ensures { said result ≡ said_of (reading input.now) }
{
    let (c, n) = Cursor::default().count(input)?;
    let c = routers(c, input, n)?;
    let c = distances(c, input, n)?;
    let nothing = Sofar {
        routers: n,
        ..Default::default()
    };
    items(c, input, nothing)
}
