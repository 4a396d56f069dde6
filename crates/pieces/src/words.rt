// The words that have a meaning of their own, so that none of them is a name.

pub const FILE: &[u8] = b"file";

pub const USE: &[u8] = b"use";

pub const VAR: &[u8] = b"var";

pub const ARRAY: &[u8] = b"array";

pub const BYTES: &[u8] = b"bytes";

pub const TABLE: &[u8] = b"table";

pub const FN: &[u8] = b"fn";

pub const IF: &[u8] = b"if";

pub const ELSE: &[u8] = b"else";

pub const WHILE: &[u8] = b"while";

pub const RETURN: &[u8] = b"return";

pub const BREAK: &[u8] = b"break";

pub const CONTINUE: &[u8] = b"continue";

pub const OUT: &[u8] = b"out";

pub const IN: &[u8] = b"in";

pub const LEN: &[u8] = b"len";

pub const CALL: &[u8] = b"call";

pub const RESERVED: [&[u8]; 17] = [
    FILE, USE, VAR, ARRAY, BYTES, TABLE, FN, IF, ELSE, WHILE, RETURN, BREAK, CONTINUE, OUT, IN,
    LEN, CALL,
];
