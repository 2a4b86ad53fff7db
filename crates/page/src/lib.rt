// The printed forecast of a snapshot's bytes, put into a lent buffer.
#![tactic(auto)]

ghost use Rattle.std.specs.Prelude.{◌≡◌, ◌-◌, ◌*◌, ◌≤◌, length, get_or};
ghost use Rattle.model.specs.Rows.{column, span};
ghost use Rattle.model.specs.Decision.{none};
ghost use Rattle.model.specs.Columns.{lent_mesh};
ghost use Rattle.snapshot.specs.Limits.{most_routers};
ghost use Rattle.snapshot.specs.Lent.{tables_of};
ghost use Rattle.rows.specs.Lent.{columns_in, cut};
ghost use Rattle.outlook.specs.Outlook.{Part};
ghost use Rattle.text.specs.Text.{each, HasRoom, Puts, PutsAtMost};
ghost use Rattle.lines.specs.Lines.{widest, router_line};
ghost use Rattle.page.specs.Page.{block, widest_block, said, Renders};
ghost use Rattle.page.specs.Lent.{Rows, decided_text, lent_text, blank, Blocks, lent_page, Ready};

use refusal::{Refusal, Refused};
use rows::Mesh;
use snapshot::{Arrays, Counts, LentTables, Tables};
use text::Sink;

// Puts the line of every router.
fn put_routers(sink: &mut Sink<'_>, unsettled: bool, router: &[u32], early: &[u16], late: &[u16])
    requires late_len { (length late.now ≡ length early.now) × (length early.now ≤ most_routers) × HasRoom sink.old (widest * length early.now) }
    requires rows { Rows router.now early.now × Rows router.now late.now }
    ensures { PutsAtMost (widest * length early.now) sink.old sink.new (each (λ r. router_line unsettled (column router.now) r (get_or early.now r none) (get_or late.now r none)) (span 0 (length early.now))) }
{
    for (r, (first, second)) in early.iter().zip(late).enumerate() {
        lines::put_router(sink, unsettled, router, r as u32, *first, *second);
    }
}

// Puts a prefix's line and those of its routers.
fn put_block(
    sink: &mut Sink<'_>,
    address: u32,
    bits: u32,
    number: u32,
    router: &[u32],
    early: &[u16],
    late: &[u16],
)
    requires late_len { (length late.now ≡ length early.now) × (length early.now ≤ most_routers) × HasRoom sink.old widest_block }
    requires rows { Rows router.now early.now × Rows router.now late.now }
    ensures { PutsAtMost widest_block sink.old sink.new (block address bits number (column router.now) (length early.now) early.now late.now) }
{
    lines::put_prefix(sink, address, bits, number);
    put_routers(sink, number != 0, router, early, late);
}

// Puts the block of the routes from one row of a mesh to another, with the early and late rows that they lead to.
fn put_decided(
    sink: &mut Sink<'_>,
    address: u32,
    bits: u32,
    routers: usize,
    first: usize,
    end: usize,
    mesh: &Mesh<'_>,
)
    requires { HasRoom sink.old widest_block × Part routers first end mesh.now.ids.now mesh.now.distances.now (columns_in mesh.now.routes) blank blank }
    ensures { PutsAtMost widest_block sink.old sink.new (decided_text address bits (lent_mesh routers mesh.now.ids.now mesh.now.distances.now (cut first (end - first) (columns_in mesh.now.routes)))) }
{
    let mut early = [0u16; snapshot::MOST_ROUTERS as usize];
    let mut late = [0u16; snapshot::MOST_ROUTERS as usize];
    let d = outlook::shown(routers, first, end, mesh, &mut early, &mut late);
    put_block(
        sink,
        address,
        bits,
        d.number,
        &mesh.routes.router[first..end],
        &early[..routers],
        &late[..routers],
    );
}

// Puts the blocks of so many prefixes of lent tables.
fn put_prefixes(sink: &mut Sink<'_>, routers: usize, prefixes: usize, tables: &Tables<'_>)
    requires may_be_decided { Blocks routers prefixes (tables_of tables.now) }
    requires prefixes_in_bounds { HasRoom sink.old (widest_block * prefixes) }
    ensures { PutsAtMost (widest_block * prefixes) sink.old sink.new (each (lent_text routers (tables_of tables.now)) (span 0 prefixes)) }
{
    let mesh = outlook::mesh_of(tables);
    let addresses = tables.address;
    let named = addresses[..prefixes].iter().zip(tables.bits);
    let mut first = 0;
    for ((address, bits), many) in named.zip(tables.routes) {
        let last = first + *many as usize;
        put_decided(sink, *address, *bits, routers, first, last, &mesh);
        first = last;
    }
}

// Puts the page of what was read into lent tables.
fn put_read(read: Result<Counts, Refused>, sink: &mut Sink<'_>, tables: &Tables<'_>)
    requires { (sink.old.at ≡ 0) × Ready read (tables_of tables.now) (length sink.old.out.now) }
    ensures { Puts sink.old sink.new (lent_page read (tables_of tables.now)) }
{
    match read {
        Err(e) => lines::put_refused(sink, refusal::number(e.refusal), e.place),
        Ok(counts) => {
            let (routers, prefixes) = (counts.routers, counts.prefixes);
            lines::put_heading(sink, routers, prefixes);
            put_prefixes(sink, routers as usize, prefixes as usize, tables);
        }
    }
}

// The most bytes of any page.
pub const PAGE: usize = 332880;

// Puts the page of a snapshot's bytes at the start of a buffer, and answers how many bytes it has. ROOM, at place 0, where not every page
// would fit into it.
pub fn render(input: &[u8], out: &mut [u8]) -> Result<usize, Refused>
    ensures { Renders input.now out.old (said result) out.new }
{
    if out.len() < PAGE {
        return Err(Refused {
            refusal: Refusal::Room,
            place: 0,
        });
    }
    let mut arrays = Arrays::new();
    let mut tables = LentTables {
        ids: &mut arrays.ids,
        distances: &mut arrays.distances,
        address: &mut arrays.address,
        bits: &mut arrays.bits,
        routes: &mut arrays.routes,
        router: &mut arrays.router,
        asn: &mut arrays.asn,
        preference: &mut arrays.preference,
        path: &mut arrays.path,
        origin: &mut arrays.origin,
        mark: &mut arrays.mark,
        med: &mut arrays.med,
        nid: &mut arrays.nid,
        peer: &mut arrays.peer,
    };
    let read = reader::read_snapshot(input, &mut tables);
    let mut sink = Sink::new(out);
    put_read(read, &mut sink, &tables.view());
    Ok(sink.at)
}
