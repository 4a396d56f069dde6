// Texts at the limits of the language, as parts to make them of.

// A text as it stands.
#[derive(Clone, Copy)]
pub struct Written {
    pub name: &'static str,
    pub text: &'static [u8],
}

// A part that may stand so many times and not once more; as often as it stands, something behind the middle shuts it.
#[derive(Clone, Copy)]
pub struct Limit {
    pub name: &'static str,
    pub front: &'static [u8],
    pub part: &'static [u8],
    pub most: usize,
    pub middle: &'static [u8],
    pub shut: &'static [u8],
    pub back: &'static [u8],
}

// The same with a number in each part, so that names differ; the first stands in the front.
#[derive(Clone, Copy)]
pub struct Numbered {
    pub name: &'static str,
    pub front: &'static [u8],
    pub before: &'static [u8],
    pub most: usize,
    pub behind: &'static [u8],
    pub back: &'static [u8],
}

pub const KEYWORDS: [&str; 17] = [
    "file", "use", "var", "array", "bytes", "table", "fn", "if", "else", "while", "return",
    "break", "continue", "out", "in", "len", "call",
];

pub const WRITTEN: [Written; 45] = [
    Written {
        name: "no byte at all",
        text: b"",
    },
    Written {
        name: "only a file",
        text: b"file a;",
    },
    Written {
        name: "no file at the start",
        text: b"fn main() { }",
    },
    Written {
        name: "a quote that does not end",
        text: b"file a; bytes b = \"abc; fn main() { }",
    },
    Written {
        name: "a note at the end without a line end",
        text: b"file a; fn main() { } # a note",
    },
    Written {
        name: "no main",
        text: b"file a; fn f() { }",
    },
    Written {
        name: "main in the second file only",
        text: b"file a; file b; fn main() { }",
    },
    Written {
        name: "main used from the second file",
        text: b"file a; use b: main; file b; fn main() { }",
    },
    Written {
        name: "main with a parameter",
        text: b"file a; fn main(x) { }",
    },
    Written {
        name: "break outside a loop",
        text: b"file a; fn main() { while 1 { break; } break; }",
    },
    Written {
        name: "continue in an if outside a loop",
        text: b"file a; fn main() { if 1 { continue; } }",
    },
    Written {
        name: "the largest number",
        text: b"file a; fn main() { return 4294967295; }",
    },
    Written {
        name: "a number too large",
        text: b"file a; fn main() { return 4294967296; }",
    },
    Written {
        name: "a number of eleven digits",
        text: b"file a; fn main() { return 00000000001; }",
    },
    Written {
        name: "a word of digits and letters",
        text: b"file a; fn main() { return 12ab; }",
    },
    Written {
        name: "an own array of 4096",
        text: b"file a; fn main() { array x[4096]; }",
    },
    Written {
        name: "an own array of 4097",
        text: b"file a; fn main() { array x[4097]; }",
    },
    Written {
        name: "an own array of none",
        text: b"file a; fn main() { bytes x[0]; }",
    },
    Written {
        name: "a top array of 65536",
        text: b"file a; array x[65536]; fn main() { }",
    },
    Written {
        name: "a top array of 65537",
        text: b"file a; array x[65537]; fn main() { }",
    },
    Written {
        name: "a top array of none",
        text: b"file a; bytes x[0]; fn main() { }",
    },
    Written {
        name: "262144 elements",
        text: b"file a; array a[65536]; bytes b[65536]; array c[65536]; array d[65536]; fn main() { }",
    },
    Written {
        name: "262145 elements",
        text: b"file a; array a[65536]; bytes b[65536]; array c[65536]; array d[65535]; fn main() { } file b; array e = 1, 2;",
    },
    Written {
        name: "an empty quoted text",
        text: b"file a; bytes x = \"\"; fn main() { }",
    },
    Written {
        name: "a value too large",
        text: b"file a; array x = 1, 4294967296; fn main() { }",
    },
    Written {
        name: "files in a ring",
        text: b"file a; use b: g; fn main() { g(); } file b; use c: h; fn g() { h(); } file c; use a: main; fn h() { main(); }",
    },
    Written {
        name: "a use through a third file",
        text: b"file a; use b: f; fn main() { f(); } file b; use c: f; file c; fn f() { }",
    },
    Written {
        name: "a use of its own file",
        text: b"file a; use a: f; fn main() { f(); }",
    },
    Written {
        name: "a use of a file that is not there",
        text: b"file a; use b: f; fn main() { f(); }",
    },
    Written {
        name: "a file's name twice",
        text: b"file a; fn main() { } file a; fn f() { }",
    },
    Written {
        name: "a name twice at the top",
        text: b"file a; var x; fn x() { } fn main() { }",
    },
    Written {
        name: "a name at the top that is used too",
        text: b"file a; use b: x; var x; fn main() { } file b; var x;",
    },
    Written {
        name: "a name twice in a function",
        text: b"file a; fn f(x, y) { var z, y; } fn main() { }",
    },
    Written {
        name: "an array for a word",
        text: b"file a; array x[2]; fn f(n) { } fn main() { f(x); }",
    },
    Written {
        name: "a word for an array",
        text: b"file a; fn f(a[]) { } fn main() { f(1); }",
    },
    Written {
        name: "bytes for words",
        text: b"file a; bytes x[2]; fn f(n, a[]) { } fn main() { var n; f(n, x); }",
    },
    Written {
        name: "a name right at first and wrong further on",
        text: b"file a; fn x() { } fn main() { x(); return x; }",
    },
    Written {
        name: "a call in a call of the same function",
        text: b"file a; fn f(x) { } fn main() { return f(f(1, 2)); }",
    },
    Written {
        name: "a name that is set and called",
        text: b"file a; fn x() { } fn main() { x = x(); }",
    },
    Written {
        name: "an element of a word",
        text: b"file a; array a[2]; var w; fn main() { w[a[w]] = a[w]; }",
    },
    Written {
        name: "an element of nothing behind others",
        text: b"file a; array a[2]; fn main() { a[0] = a[1] + b[a[0]]; }",
    },
    Written {
        name: "a table's second argument",
        text: b"file a; table t = f; bytes b[2]; fn f(n, m[]) { } fn main() { call t[len(b)](len(b), (b)); }",
    },
    Written {
        name: "an unknown function in a table",
        text: b"file a; table t = main, f; fn main() { }",
    },
    Written {
        name: "functions of a table that differ",
        text: b"file a; table t = f, main; fn f(n) { } fn main() { }",
    },
    Written {
        name: "a sign that no rule uses",
        text: b"file a; fn main() { return @; }",
    },
];

pub const LIMITS: [Limit; 8] = [
    Limit {
        name: "blanks behind a file",
        front: b"file a; fn main() { }",
        part: b" ",
        most: 32747,
        middle: b"",
        shut: b"",
        back: b"",
    },
    Limit {
        name: "numbers added to one",
        front: b"file a; fn main(){return 1",
        part: b"+1",
        most: 16370,
        middle: b"",
        shut: b"",
        back: b";}",
    },
    Limit {
        name: "signs in a row",
        front: b"file a; fn main() { return ",
        part: b"-",
        most: 40,
        middle: b"",
        shut: b"",
        back: b"1; }",
    },
    Limit {
        name: "times three signs behind one",
        front: b"file a; fn main() { return ~",
        part: b"!-~",
        most: 13,
        middle: b"",
        shut: b"",
        back: b"1; }",
    },
    Limit {
        name: "round brackets in a body",
        front: b"file a; fn main() { return ",
        part: b"(",
        most: 39,
        middle: b"1",
        shut: b")",
        back: b"; }",
    },
    Limit {
        name: "square brackets in a body",
        front: b"file a; array a[1]; fn main() { return ",
        part: b"a[",
        most: 39,
        middle: b"0",
        shut: b"]",
        back: b"; }",
    },
    Limit {
        name: "blocks in a body",
        front: b"file a; fn main() {",
        part: b" if 1 {",
        most: 39,
        middle: b"",
        shut: b" }",
        back: b" }",
    },
    Limit {
        name: "bytes of a name",
        front: b"file a; var ",
        part: b"x",
        most: 32,
        middle: b"",
        shut: b"",
        back: b"; fn main() { }",
    },
];

pub const NUMBERED: [Numbered; 4] = [
    Numbered {
        name: "parameters",
        front: b"file a; fn f(x0",
        before: b", x",
        most: 8,
        behind: b"",
        back: b") { } fn main() { }",
    },
    Numbered {
        name: "variables of a function",
        front: b"file a; fn main() { var x0",
        before: b", x",
        most: 64,
        behind: b"",
        back: b"; }",
    },
    Numbered {
        name: "arrays of a function",
        front: b"file a; fn main() { array x0[1];",
        before: b" bytes x",
        most: 16,
        behind: b"[1];",
        back: b" }",
    },
    NAMES,
];

// As many names at the top as one text has room for.
pub const NAMES: Numbered = Numbered {
    name: "names at the top",
    front: b"file a; var x0;",
    before: b"var x",
    most: 3385,
    behind: b";",
    back: b"fn main(){}",
};

// Names at the top, the last of which is used again and again.
pub const USED: Numbered = Numbered {
    name: "names at the top, the last used 3300 times",
    front: b"file a; var x0;",
    before: b"var x",
    most: 1400,
    behind: b";",
    back: b"fn main(){return 1",
};
