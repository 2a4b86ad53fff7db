// Reads, writes and compares: every file of data/ is read as a snapshot, and where it is accepted, it is written again and the bytes are
// compared with the file's. For each file one line: its name, then `accepted` with the numbers of routers, prefixes and routes, and `same
// bytes`; or `refused` with number and place.
//
// tests/cases makes the files, from texts in the notation of `second`. What the program has to print, its `stdout`, was written by hand
// from the rules, and tests/cases holds it against what `second` says of the files.
#![tactic(auto)]

ghost use Rattle.std.specs.Prelude.{◌≡◌, ◌++◌, suc, ◌+◌, ◌≤◌, length};
ghost use Rattle.snapshot.specs.Limits.{most_routes, longest};
ghost use Rattle.snapshot.specs.Lent.{tables_of, lent_tables, Keeps};
ghost use Rattle.tables.specs.Judging.{Decides};
ghost use Rattle.text.specs.Text.{ascii, HasRoom, PutsAtMost};
ghost use Rattle.lines.specs.Lines.{widest};
ghost use Rattle.roundtrip.specs.Trips.{Written};
ghost use Rattle.cases.specs.Cases.{found, room_for, accepted_line, finding_line, widest_line};

use refusal::Refused;
use snapshot::{Arrays, Counts, LentTables, Tables};
use std::fs;
use text::Sink;

// What is read of a file at most: one byte more than the longest snapshot, since so many decide the answer.
const INPUT: usize = snapshot::LONGEST + 1;

// No line has more bytes, its name included.
const LINE: usize = 128;

// Whether counts and tables are written as these bytes.
fn written_as(input: &[u8], counts: Counts, tables: &Tables<'_>, again: &mut [u8]) -> bool
    requires { length input.now ≤ length again.old }
    ensures { Decides (Written input.now counts (tables_of tables.now)) result }
{
    match writer::write_snapshot(counts, tables, again) {
        Ok(n) => &again[..n] == input,
        Err(_) => false,
    }
}

// Finds out about a snapshot's bytes, with tables that are lent for it: its counts, and whether it is written as the same bytes again;
// or a refusal.
fn examined(input: &[u8], tables: &mut LentTables<'_>) -> Result<(Counts, bool), Refused>
    requires { length input.now ≤ suc longest }
    ensures finds { result ≡ found input.now (lent_tables tables.old) }
    ensures kept { Keeps tables.old tables.new }
{
    let mut again = [0u8; INPUT];
    let counts = reader::read_snapshot(input, tables)?;
    let same = written_as(input, counts, &tables.view(), &mut again);
    Ok((counts, same))
}

// Puts what was found of a snapshot that was accepted.
fn put_accepted(sink: &mut Sink<'_>, counts: Counts, same: bool)
    requires { HasRoom sink.old widest }
    ensures { PutsAtMost widest sink.old sink.new (accepted_line counts same) }
{
    sink.put_text(b"accepted");
    lines::put_number(sink, b" ", counts.routers);
    lines::put_number(sink, b" ", counts.prefixes);
    lines::put_number(sink, b" ", counts.routes);
    if same {
        sink.put_text(b" same bytes\n");
        return;
    }
    sink.put_text(b" other bytes\n");
}

// Puts the line of a file with these bytes.
fn put_line(sink: &mut Sink<'_>, name: &[u8], input: &[u8], tables: &mut LentTables<'_>)
    requires { HasRoom sink.old (length name.now + 1 + widest) × (length input.now ≤ suc longest) }
    ensures puts { PutsAtMost (length name.now + 1 + widest) sink.old sink.new (name.now ++ ascii " " ++ finding_line (found input.now (lent_tables tables.old))) }
    ensures kept { Keeps tables.old tables.new }
{
    sink.put_text(name);
    sink.put_text(b" ");
    match examined(input, tables) {
        Ok((counts, same)) => put_accepted(sink, counts, same),
        Err(e) => lines::put_refused(sink, refusal::number(e.refusal), e.place),
    }
}

// The same, with tables of its own in which there is room for so many peers.
fn put_case(sink: &mut Sink<'_>, name: &[u8], input: &[u8], peers: usize)
    requires { HasRoom sink.old (length name.now + 1 + widest) × (length input.now ≤ suc longest) × (peers ≤ most_routes) }
    ensures { PutsAtMost (length name.now + 1 + widest) sink.old sink.new (name.now ++ ascii " " ++ finding_line (found input.now (room_for peers))) }
{
    let mut arrays = Arrays::new();
    let mut tables = LentTables {
        ids: &mut arrays.ids,
        distances: &mut arrays.distances,
        address: &mut arrays.address,
        bits: &mut arrays.bits,
        routes: &mut arrays.routes,
        router: &mut arrays.router,
        asn: &mut arrays.asn,
        preference: &mut arrays.preference,
        path: &mut arrays.path,
        origin: &mut arrays.origin,
        mark: &mut arrays.mark,
        med: &mut arrays.med,
        nid: &mut arrays.nid,
        peer: &mut arrays.peer[..peers],
    };
    put_line(sink, name, input, &mut tables);
}

// Reads a file, with room for so many peers, and prints its line.
fn run(rt: &HostRuntime, name: &str, room: usize)
    requires { (length name.now + 1 + widest ≤ widest_line) × (room ≤ most_routes) }
{
    let mut file = match fs::open(rt, name) {
        Ok(file) => file,
        Err(e) => {
            files::say_unreadable(rt, name, &e);
            return;
        }
    };
    let mut input = [0u8; INPUT];
    let n = files::read_full(&mut file, &mut input);
    let mut out = [0u8; LINE];
    let mut sink = Sink::new(&mut out);
    put_case(&mut sink, name.as_bytes(), &input[..n], room);
    let _ = rt.write_all(sink.text());
}

// Reads a file, where each table has room for its limit.
fn case(rt: &HostRuntime, name: &str)
    requires { length name.now + 1 + widest ≤ widest_line }
{
    run(rt, name, snapshot::MOST_ROUTES as usize);
}

// The inputs that the rules were given with: the sums on paper, then those to be run.
fn document(rt: &HostRuntime) {
    for name in [
        "p1",
        "p2",
        "p3",
        "p4",
        "p5",
        "p6",
        "p7",
        "p8",
        "p9",
        "p10",
        "p11",
        "empty",
        "byte-1",
        "distance-16777215",
        "distance-16777216",
        "as-65534",
        "as-65535",
        "routes-256",
        "routes-257",
        "prefix-10.0.0.1-24",
    ] {
        case(rt, name);
    }
}

// The neighbour AS at its borders, in both kinds, and both kinds below one prefix.
fn neighbour_as(rt: &HostRuntime) {
    for name in [
        "as-1",
        "as-23455",
        "as-23456",
        "as-23457",
        "as-65536",
        "as-4294967294",
        "as-4294967295",
        "long-as-0",
        "long-as-1",
        "long-as-23456",
        "long-as-65534",
        "long-as-65535",
        "both-kinds",
        "short-then-long-falls",
        "long-then-short-falls",
        "long-cut-in-its-as",
        "long-cut-by-a-byte",
        "long-route-without-prefix",
        "routes-257-of-both-kinds",
    ] {
        case(rt, name);
    }
}

// Snapshots with the least and the most of something.
fn limits(rt: &HostRuntime) {
    for name in [
        "no-prefixes",
        "prefix-lengths",
        "no-routes-between",
        "meds",
        "least",
        "greatest",
        "greatest-long",
        "prefixes-64",
        "longest",
    ] {
        case(rt, name);
    }
}

// CUT, KIND, PLACE.
fn cut_kind_place(rt: &HostRuntime) {
    for name in [
        "p5-less-one",
        "p5-cut-in-a-route",
        "no-end",
        "kind-0",
        "kind-8",
        "kind-255",
        "end-first",
        "router-late",
        "route-without-prefix",
    ] {
        case(rt, name);
    }
}

// FIELD.
fn field(rt: &HostRuntime) {
    for name in [
        "routers-0",
        "routers-65",
        "router-id-0",
        "prefix-33",
        "route-of-nobody",
        "as-0",
        "path-0",
        "origin-3",
        "mark-2",
        "med-without-mark",
        "neighbour-id-0",
        "peer-0",
    ] {
        case(rt, name);
    }
}

// ORDER, TWIN, FULL.
fn order_twin_full(rt: &HostRuntime) {
    for name in [
        "router-skipped",
        "equal-pair",
        "prefix-twice",
        "p5-route-moved",
        "twin-ids",
        "prefix-65",
        "routes-1025",
    ] {
        case(rt, name);
    }
}

// COUNT, TAIL.
fn count_tail(rt: &HostRuntime) {
    for name in [
        "p5-counts-16",
        "p5-routes-joined",
        "p5-and-one",
        "longest-and-one",
    ] {
        case(rt, name);
    }
}

fn main(rt: HostRuntime) {
    document(&rt);
    neighbour_as(&rt);
    limits(&rt);
    cut_kind_place(&rt);
    field(&rt);
    order_twin_full(&rt);
    count_tail(&rt);
    // ROOM: a table is one entry short.
    run(&rt, "p5", snapshot::MOST_ROUTES as usize - 1);
}
