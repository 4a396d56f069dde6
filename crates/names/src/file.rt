// A file of a program's row: what is looked up in it are methods in the modules beside this one.

// The place of the file's name.
#[derive(Clone, Copy)]
pub struct File<'a> {
    pub row: &'a [u32],
    pub name: usize,
}
