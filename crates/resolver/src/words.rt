// A node with its name resolved, and the three words that it is in the row.
ghost use Rattle.std.specs.Prelude.{◌≡◌, ◌<◌, [], ◌∷◌, true, false};
ghost use Rattle.language.specs.Syntax.{pick};
ghost use Rattle.rows.specs.NodeTags.{tag_no};
ghost use Rattle.names.specs.Refer.{wide};
ghost use Rattle.generator.specs.ResolvedRows.{node_words};
ghost use Rattle.resolver.specs.Stands.{Fits, read_of, pass_of, set_of, array_of, named_by, is_value_name, is_call, plain_tag_of, has_value, seen, array_seen};

use names::found::Reference;
use rows::tag::Tag;

// An array at the top, or a function's own, by its number.
#[derive(Clone, Copy, Debug, PartialEq, Eq)]
pub enum Array {
    Top(u32),
    Own(u32),
}

#[derive(Clone, Copy, Debug, PartialEq, Eq)]
pub enum Resolved {
    Num(u32),
    // a word of the function's own, used where it stands; or copied, as an argument
    Own(u32),
    Copy(u32),
    // a word at the top
    Get(u32),
    // an array as an argument
    Pass(Array),
    Bin(u32),
    Un(u32),
    And,
    Or,
    Join,
    Idx(Array),
    Len(Array),
    // function or table, and how many arguments
    Call(u32, u32),
    By(u32, u32),
    In,
    Set(u32),
    SetWord(u32),
    // to a name that is no word: it never comes to that in a program
    Clear,
    // whether it is an array of words
    Store(bool, Array),
    Ex,
    Out,
    If,
    Else,
    Fi,
    Loop,
    While,
    Again,
    Ret,
    Break,
    Next,
    End,
}

impl From<Resolved> for [u32; 3] {
    ghost from_gives = { λ node words. words ≡ node_words (seen node) };

    fn from(node: Resolved) -> [u32; 3] {
        match node {
            Resolved::Num(n) => [0, n, 0],
            Resolved::Own(k) => [1, k, 0],
            Resolved::Copy(k) => [2, k, 0],
            Resolved::Get(i) => [3, i, 0],
            Resolved::Pass(Array::Top(a)) => [4, a, 0],
            Resolved::Pass(Array::Own(a)) => [4, a, 1],
            Resolved::Bin(o) => [5, o, 0],
            Resolved::Un(o) => [6, o, 0],
            Resolved::And => [7, 0, 0],
            Resolved::Or => [8, 0, 0],
            Resolved::Join => [9, 0, 0],
            Resolved::Idx(Array::Top(a)) => [10, a, 0],
            Resolved::Idx(Array::Own(a)) => [10, a, 1],
            Resolved::Len(Array::Top(a)) => [11, a, 0],
            Resolved::Len(Array::Own(a)) => [11, a, 1],
            Resolved::Call(f, n) => [12, f, n],
            Resolved::By(t, n) => [13, t, n],
            Resolved::In => [14, 0, 0],
            Resolved::Set(k) => [15, k, 0],
            Resolved::SetWord(i) => [16, i, 0],
            Resolved::Clear => [17, 0, 0],
            Resolved::Store(false, Array::Top(a)) => [18, a, 0],
            Resolved::Store(false, Array::Own(a)) => [18, a, 1],
            Resolved::Store(true, Array::Top(a)) => [18, a, 2],
            Resolved::Store(true, Array::Own(a)) => [18, a, 3],
            Resolved::Ex => [19, 0, 0],
            Resolved::Out => [20, 0, 0],
            Resolved::If => [21, 0, 0],
            Resolved::Else => [22, 0, 0],
            Resolved::Fi => [23, 0, 0],
            Resolved::Loop => [24, 0, 0],
            Resolved::While => [25, 0, 0],
            Resolved::Again => [26, 0, 0],
            Resolved::Ret => [27, 0, 0],
            Resolved::Break => [28, 0, 0],
            Resolved::Next => [29, 0, 0],
            Resolved::End => [30, 0, 0],
        }
    }
}

// A number that is a word's.
pub fn word(n: usize) -> u32
    ensures { n < 4294967296 → result ≡ n }
{
    u32::try_from(n).unwrap_or(0)
}

// A name that is read.
fn read(r: Reference) -> Resolved
    ensures { Fits r → seen result ≡ read_of r }
{
    match r {
        Reference::OwnWord(i) => Resolved::Own(word(i)),
        Reference::TopWord(i) => Resolved::Get(word(i)),
        _ => Resolved::Num(0),
    }
}

// A name that is passed on as an argument.
fn pass(r: Reference) -> Resolved
    ensures { Fits r → seen result ≡ pass_of r }
{
    match r {
        Reference::OwnWord(i) => Resolved::Copy(word(i)),
        Reference::TopWord(i) => Resolved::Get(word(i)),
        Reference::OwnArray(i, _) => Resolved::Pass(Array::Own(word(i))),
        Reference::TopArray(i, _) => Resolved::Pass(Array::Top(word(i))),
        Reference::Other => Resolved::Num(0),
    }
}

// A name that is set.
fn set(r: Reference) -> Resolved
    ensures { Fits r → seen result ≡ set_of r }
{
    match r {
        Reference::OwnWord(i) => Resolved::Set(word(i)),
        Reference::TopWord(i) => Resolved::SetWord(word(i)),
        _ => Resolved::Clear,
    }
}

// The array that a name stands for; what is no array counts as the first at the top.
fn array_named(r: Reference) -> Array
    ensures { Fits r → array_seen result ≡ array_of r }
{
    match r {
        Reference::OwnArray(i, _) => Array::Own(word(i)),
        Reference::TopArray(i, _) => Array::Top(word(i)),
        _ => Array::Top(0),
    }
}

// Whether it is one of words, as what is no array counts too.
fn is_wide(r: Reference) -> bool
    ensures { result ≡ wide r }
{
    !matches!(
        r,
        Reference::OwnArray(_, false) | Reference::TopArray(_, false)
    )
}

// Whether a name stands in a node that is read, set or passed on.
pub fn names_value(tag: Tag) -> bool
    ensures { result ≡ is_value_name (tag_no tag) }
{
    matches!(
        tag,
        Tag::Var | Tag::Idx | Tag::Len | Tag::Set | Tag::Store | Tag::Arg
    )
}

// Such a node, by its tag and what its name stands for.
pub fn named(tag: Tag, r: Reference) -> Resolved
    ensures { Fits r → seen result ≡ named_by (tag_no tag) r }
{
    match tag {
        Tag::Var => read(r),
        Tag::Idx => Resolved::Idx(array_named(r)),
        Tag::Len => Resolved::Len(array_named(r)),
        Tag::Set => set(r),
        Tag::Store => Resolved::Store(is_wide(r), array_named(r)),
        _ => pass(r),
    }
}

// A node without a name; a number's first digit or an operator follows the tag of some.
pub fn plain(tag: Tag, value: u32) -> Resolved
    ensures { is_value_name (tag_no tag) ≡ false → is_call (tag_no tag) ≡ false → node_words (seen result) ≡ (plain_tag_of (tag_no tag) ∷ pick (has_value (tag_no tag)) value 0 ∷ 0 ∷ []) }
{
    match tag {
        Tag::Num => Resolved::Num(value),
        Tag::Bin => Resolved::Bin(value),
        Tag::Un => Resolved::Un(value),
        Tag::And => Resolved::And,
        Tag::Or => Resolved::Or,
        Tag::Join => Resolved::Join,
        Tag::In => Resolved::In,
        Tag::Ex => Resolved::Ex,
        Tag::Out => Resolved::Out,
        Tag::If => Resolved::If,
        Tag::Else => Resolved::Else,
        Tag::Fi => Resolved::Fi,
        Tag::Loop => Resolved::Loop,
        Tag::While => Resolved::While,
        Tag::Again => Resolved::Again,
        Tag::Ret => Resolved::Ret,
        Tag::Break => Resolved::Break,
        Tag::Next => Resolved::Next,
        _ => Resolved::End,
    }
}
