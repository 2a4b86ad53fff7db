// Reading a snapshot: from bytes to the lent tables, or a refusal by number and place with nothing altered.
#![tactic(auto)]

ghost use Rattle.std.specs.Prelude.{◌≡◌};
ghost use Rattle.snapshot.specs.Lent.{lent_tables, Keeps};
ghost use Rattle.scan.specs.Scan.{said};
ghost use Rattle.reader.specs.Read.{read_answer, read_tables};

use refusal::{Refusal, Refused};
use snapshot::{Counts, LentTables};

// Reads a snapshot into the lent tables. Each table has room for its limit, or nothing is read; the whole input is judged before
// the first entry is altered.
pub fn read_snapshot(input: &[u8], tables: &mut LentTables<'_>) -> Result<Counts, Refused>
    ensures read { (said result ≡ read_answer input.now (lent_tables tables.old))
        × (lent_tables tables.new ≡ read_tables input.now (lent_tables tables.old)) }
    ensures kept { Keeps tables.old tables.new }
{
    if tables.view().lacks_room() {
        return Err(Refused {
            refusal: Refusal::Room,
            place: 0,
        });
    }
    let counts = scan::judge(input)?;
    let n = counts.routers as usize;
    let m = counts.prefixes as usize;
    pour::fill_tables(input, n, m, tables);
    Ok(counts)
}
