// What is lowered, and where its parts begin.

// The row of the functions' steps, how many functions there are, how many words at the top, and the number of the main function.
#[derive(Clone, Copy)]
pub struct Program<'a> {
    pub steps: &'a [u32],
    pub count: u32,
    pub words: u32,
    pub main: u32,
}

// Where each function begins, the first word standing for function 0, and where each step begins.
#[derive(Clone, Copy)]
pub struct Tables<'a> {
    pub entries: &'a [u32],
    pub places: &'a [u32],
}
