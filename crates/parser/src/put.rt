// Writing texts, names of functions with their kinds, and the beginnings and ends of items.
ghost use Rattle.std.specs.Prelude.{◌≡◌, ◌+◌, ◌-◌, ◌*◌, ◌<◌, ◌≤◌, ◌∷◌, ◌++◌, length};
ghost use Rattle.rows.specs.Has.{named};
ghost use Rattle.rows.specs.Kinds.{item_kind_no, local_kind_no};
ghost use Rattle.rows.specs.Nodes.{num_row};
ghost use Rattle.rows.specs.Row.{Wrote, Patched};
ghost use Rattle.rows.specs.Trees.{list_row};
ghost use Rattle.parser.specs.Lists.{name_row};

use bodies::put_num;
use rows::kind::{ItemKind, LocalKind};
use rows::row::Row;

// The bytes of a text, each as a number.
pub fn put_text(out: &mut Row, w: &[u8])
    requires { out.old.len + 2 * length w.now ≤ length out.old.words.now }
    ensures { Wrote out.old out.new (list_row num_row w.now) }
{
    for byte in w {
        put_num(out, u64::from(*byte));
    }
}

fn local_number(kind: LocalKind) -> u32
    ensures { result ≡ local_kind_no kind }
{
    kind as u32
}

fn item_number(kind: ItemKind) -> u32
    ensures { result ≡ item_kind_no kind }
{
    kind as u32
}

// A name of a function: its kind, its size, the name.
pub fn put_local(out: &mut Row, kind: LocalKind, size: u64, x: &[u8])
    requires room { out.old.len + (length x.now + 4) ≤ length out.old.words.now }
    requires short { length x.now ≤ 32 }
    ensures { Wrote out.old out.new (local_kind_no kind ∷ (num_row size ++ named x.now)) }
{
    out.put(local_number(kind));
    put_num(out, size);
    out.put_name(x);
}

// A name of a list: a function's variable, or the name alone.
pub fn put_listed(out: &mut Row, local: bool, x: &[u8])
    requires room { out.old.len + length (name_row local x.now) ≤ length out.old.words.now }
    requires short { length x.now ≤ 32 }
    ensures { Wrote out.old out.new (name_row local x.now) }
{
    if local {
        put_local(out, LocalKind::Word, 0, x);
    } else {
        out.put_name(x);
    }
}

// An item's kind, the place of its length, its name.
pub fn open_item(out: &mut Row, kind: ItemKind, x: &[u8])
    requires room { out.old.len + (length x.now + 3) ≤ length out.old.words.now }
    requires short { length x.now ≤ 32 }
    ensures { Wrote out.old out.new (item_kind_no kind ∷ 0 ∷ named x.now) }
{
    out.put_all(&[item_number(kind), 0]);
    out.put_name(x);
}

// How many words an item that begins at a place has behind its first two.
pub fn close_item(out: &mut Row, start: usize)
    requires some { start + 2 ≤ out.old.len }
    requires few { out.old.len < start + 4294967296 }
    ensures { Patched out.old out.new (start + 1) (out.old.len - start - 2) }
{
    let count = out.len - start - 2;
    out.set(start + 1, count as u32);
}
