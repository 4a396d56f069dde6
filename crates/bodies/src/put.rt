// Writing the nodes of trees.
ghost use Rattle.std.specs.Prelude.{◌≡◌, ◌+◌, ◌≤◌, ◌∷◌, length};
ghost use Rattle.rows.specs.Row.{Wrote};
ghost use Rattle.rows.specs.Has.{named};
ghost use Rattle.rows.specs.Nodes.{num_row};
ghost use Rattle.rows.specs.NodeTags.{tag_no};
ghost use Rattle.pieces.specs.Seen.{op_of};
ghost use Rattle.bodies.specs.Outcome.{mid, post, Marked};

use pieces::seen::Op;
use rows::row::Row;
use rows::tag::Tag;

// A tag's number.
pub fn number_of(tag: Tag) -> u32
    ensures { result ≡ tag_no tag }
{
    tag as u32
}

// A number, by two words.
pub fn put_num(out: &mut Row, n: u64)
    requires { out.old.len + 2 ≤ length out.old.words.now }
    ensures { Wrote out.old out.new (num_row n) }
{
    out.put_all(&[(n % 4294967296) as u32, (n / 4294967296) as u32]);
}

pub fn put_named(out: &mut Row, tag: Tag, w: &[u8])
    requires room { out.old.len + (length w.now + 2) ≤ length out.old.words.now }
    requires short { length w.now ≤ 32 }
    ensures { Wrote out.old out.new (tag_no tag ∷ named w.now) }
{
    out.put(number_of(tag));
    out.put_name(w);
}

pub fn put_call(out: &mut Row, tag: Tag, count: u32, w: &[u8])
    requires room { out.old.len + (length w.now + 3) ≤ length out.old.words.now }
    requires short { length w.now ≤ 32 }
    ensures { Wrote out.old out.new (tag_no tag ∷ count ∷ named w.now) }
{
    out.put_all(&[number_of(tag), count]);
    out.put_name(w);
}

// What an operator writes between its operands.
pub fn put_mid(out: &mut Row, op: Op)
    requires { out.old.len + 1 ≤ length out.old.words.now }
    ensures { Wrote out.old out.new (mid (op_of op)) }
{
    match op {
        Op::Or => out.put(Tag::Or as u32),
        Op::And => out.put(Tag::And as u32),
        Op::Two(_) => {}
    }
}

// What an operator writes behind its operands.
pub fn put_post(out: &mut Row, op: Op)
    requires { out.old.len + 2 ≤ length out.old.words.now }
    ensures { Wrote out.old out.new (post (op_of op)) }
{
    match op {
        Op::Or | Op::And => out.put(Tag::Join as u32),
        Op::Two(op) => out.put_all(&[Tag::Bin as u32, u32::from(op)]),
    }
}

// An expression that was written from a place on is an argument: a name by itself gets the tag of one.
pub fn mark_arg(out: &mut Row, start: usize)
    ensures { Marked start out.old out.new }
{
    let size = out.len.saturating_sub(start);
    if size < 2 {
        return;
    }
    if out.words[start] != Tag::Var as u32 || out.words[start + 1] as usize != size - 2 {
        return;
    }
    out.set(start, Tag::Arg as u32);
}
