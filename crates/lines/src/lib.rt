// The lines of the printed forecast, put into a lent buffer.
#![tactic(auto)]

ghost use Rattle.std.specs.Prelude.{◌≡◌, ◌⊎◌, ◌++◌, ◌+◌, ◌<◌, length};
ghost use Rattle.model.specs.Rows.{column};
ghost use Rattle.model.specs.Decision.{none};
ghost use Rattle.text.specs.Text.{ascii, decimal, HasRoom, PutsAtMost};
ghost use Rattle.lines.specs.Lines.{widest, heading_line, refusal_line, refused_line, dotted, state, prefix_line, entry, or_entry, router_line};

use rows::NONE;
use text::Sink;

// Puts a word and a number.
pub fn put_number(sink: &mut Sink<'_>, word: &[u8], n: u32)
    requires { HasRoom sink.old (length word.now + 10) }
    ensures { PutsAtMost (length word.now + 10) sink.old sink.new (word.now ++ decimal n) }
{
    sink.put_text(word);
    sink.put_decimal(n as u64);
}

// Puts line 1.
pub fn put_heading(sink: &mut Sink<'_>, routers: u32, prefixes: u32)
    requires { HasRoom sink.old widest }
    ensures { PutsAtMost widest sink.old sink.new (heading_line routers prefixes) }
{
    put_number(sink, b"forecast ", routers);
    put_number(sink, b" ", prefixes);
    sink.put_text(b"\n");
}

// Puts the place of a refusal behind a space.
fn put_place(sink: &mut Sink<'_>, place: usize)
    requires { HasRoom sink.old 21 }
    ensures { PutsAtMost 21 sink.old sink.new (ascii " " ++ decimal place) }
{
    sink.put_text(b" ");
    sink.put_decimal(place as u64);
}

// Puts the line of a refusal behind a word that says so.
pub fn put_refusal(sink: &mut Sink<'_>, word: &[u8], number: u32, place: usize)
    requires { HasRoom sink.old (length word.now + 32) }
    ensures { PutsAtMost (length word.now + 32) sink.old sink.new (refusal_line word.now number place) }
{
    put_number(sink, word, number);
    put_place(sink, place);
    sink.put_text(b"\n");
}

// Puts the line of a refused snapshot.
pub fn put_refused(sink: &mut Sink<'_>, number: u32, place: usize)
    requires { HasRoom sink.old widest }
    ensures { PutsAtMost widest sink.old sink.new (refused_line number place) }
{
    put_refusal(sink, b"refused ", number, place);
}

// Puts an address.
fn put_address(sink: &mut Sink<'_>, address: u32)
    requires { HasRoom sink.old 43 }
    ensures { PutsAtMost 43 sink.old sink.new (dotted address) }
{
    put_number(sink, b"", address / 16777216);
    put_number(sink, b".", address / 65536 % 256);
    put_number(sink, b".", address / 256 % 256);
    put_number(sink, b".", address % 256);
}

// Puts whether a prefix is settled, or how many routers differ.
fn put_state(sink: &mut Sink<'_>, differing: u32)
    requires { HasRoom sink.old 16 }
    ensures { PutsAtMost 16 sink.old sink.new (state differing) }
{
    if differing == 0 {
        sink.put_text(b" settled");
        return;
    }
    put_number(sink, b" open ", differing);
}

// Puts a prefix's line.
pub fn put_prefix(sink: &mut Sink<'_>, address: u32, bits: u32, differing: u32)
    requires { HasRoom sink.old widest }
    ensures { PutsAtMost widest sink.old sink.new (prefix_line address bits differing) }
{
    sink.put_text(b"prefix ");
    put_address(sink, address);
    put_number(sink, b"/", bits);
    put_state(sink, differing);
    sink.put_text(b"\n");
}

// Puts an entry.
fn put_entry(sink: &mut Sink<'_>, router: &[u32], r: u32, row: u16)
    requires has_room { HasRoom sink.old 26 }
    requires fact { (row ≡ none) ⊎ (row < length router.now) }
    ensures { PutsAtMost 26 sink.old sink.new (entry (column router.now) r row) }
{
    if row == NONE {
        sink.put_text(b" none");
        return;
    }
    let owner = router[row as usize];
    if owner == r {
        put_number(sink, b" own ", row as u32);
        return;
    }
    put_number(sink, b" via ", owner);
    put_number(sink, b" ", row as u32);
}

// Puts `or` and the late entry where the prefix is open.
fn put_or(sink: &mut Sink<'_>, unsettled: bool, router: &[u32], r: u32, late: u16)
    requires has_room { HasRoom sink.old 29 }
    requires fact { (late ≡ none) ⊎ (late < length router.now) }
    ensures { PutsAtMost 29 sink.old sink.new (or_entry unsettled (column router.now) r late) }
{
    if unsettled {
        sink.put_text(b" or");
        put_entry(sink, router, r, late);
    }
}

// Puts a router's line.
pub fn put_router(
    sink: &mut Sink<'_>,
    unsettled: bool,
    router: &[u32],
    r: u32,
    early: u16,
    late: u16,
)
    requires has_room { HasRoom sink.old widest }
    requires fact { ((early ≡ none) ⊎ (early < length router.now)) × ((late ≡ none) ⊎ (late < length router.now)) }
    ensures { PutsAtMost widest sink.old sink.new (router_line unsettled (column router.now) r early late) }
{
    put_number(sink, b"router ", r);
    put_entry(sink, router, r, early);
    put_or(sink, unsettled, router, r, late);
    sink.put_text(b"\n");
}
